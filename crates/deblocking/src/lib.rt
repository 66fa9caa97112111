// The deblocking filter over the edges of 8 by 8 blocks inside a segment of a picture, whatever store keeps it. An edge runs along one
// coordinate and is crossed over the other: a horizontal one runs across, a vertical one down.
#![tactic(auto)]

ghost use Rattle.std.specs.Prelude.{◌≡◌, ◌+◌, ◌*◌, ◌/◌, ◌≤◌, ◌&&◌, max, Some, ◌==◌};
ghost use Rattle.pictures.specs.Pictures.{side};
ghost use Rattle.deblocking.specs.Edges.{FilteredAt, FilteredByMarks, Local, across_of, border, down_of, edge_along, edge_mark, edges, edges_in, filtered, filtered_over, is_vertical, mark_in, turn_segment};

mod squares;

use pictures::{Segment, Store, side_of};
use samples::deblock_rows;
use squares::is_same;

// Which way an edge runs.
#[derive(Clone, Copy)]
enum Direction {
    Horizontal,
    Vertical,
}

impl Direction {
    // Across and down, of what lies along and over an edge.
    fn place(self, along: usize, over: usize) -> (usize, usize)
        ensures across { result.0 ≡ across_of (is_vertical self) along over }
        ensures down { result.1 ≡ down_of (is_vertical self) along over }
        ensures most { (result.0 ≤ max along over) × (result.1 ≤ max along over) }
    {
        match self {
            Direction::Horizontal => (along, over),
            Direction::Vertical => (over, along),
        }
    }

    // A segment by along and over.
    fn turn_segment(self, segment: Segment) -> Segment
        ensures { result ≡ turn_segment (is_vertical self) segment }
    {
        match self {
            Direction::Horizontal => segment,
            Direction::Vertical => Segment {
                left: segment.top,
                right: segment.bottom,
                top: segment.left,
                bottom: segment.right,
            },
        }
    }
}

// The marks of a picture's macroblocks, by rows of so many columns.
#[derive(Clone, Copy)]
struct Marks<'a> {
    cells: &'a [Option<u8>],
    columns: u16,
}

impl Marks<'_> {
    // The mark of the macroblock so many across and so many down. (Here and below the bounds are far above what 65,535 macroblocks need, and far
    // below what a machine word holds.)
    fn at(self, across: usize, down: usize) -> Option<u8>
        requires across { across ≤ 2000000 }
        requires down { down ≤ 2000000 }
        ensures { result ≡ mark_in self.entry.cells.now self.entry.columns across down }
    {
        tables::read(self.cells, down * self.columns as usize + across).flatten()
    }
}

// An edge of a plane. The one with number n lies before coordinate 8 * n, with two samples before it and two after.
#[derive(Clone, Copy)]
struct Edge {
    plane: u8,
    direction: Direction,
    number: usize,
    ghost inside: { 1 ≤ number },
    ghost few: { number ≤ 200000 },
}

impl Edge {
    // The mark of the macroblock of this number along the edge that a coordinate over it lies in.
    fn mark_at(self, marks: Marks, along: u16, over: usize) -> Option<u8>
        requires { over ≤ 2000000 }
        ensures { let t = is_vertical self.direction in result ≡ mark_in marks.entry.cells.now marks.entry.columns (across_of t along (over / side self.plane)) (down_of t along (over / side self.plane)) }
    {
        let side = side_of(self.plane);
        let (across, down) = self.direction.place(along as usize, over / side);
        marks.at(across, down)
    }

    // The mark that the edge is filtered by between two macroblocks: the one after it, else the one before.
    fn mark(self, marks: Marks, along: u16) -> Option<u8>
        ensures { result ≡ edge_mark marks.entry.cells.now marks.entry.columns (is_vertical self.direction) (side self.plane) along self.number }
    {
        let over = self.number * 8;
        match self.mark_at(marks, along, over) {
            None => self.mark_at(marks, along, over - 1),
            mark => mark,
        }
    }

    // Filters the edge at eight places along it, whose samples lie in a square that has the edge in its middle. (Where all of them stay, as they often do,
    // none is written.)
    fn filter_square<S: Store>(self, store: &mut S, along: usize, quantizer: u8)
        requires { along ≤ 2000000 }
        ensures { FilteredAt self.direction (edges self.plane along (along + 8) self.number (self.number + 1)) (λ _ _ _. Some quantizer) (S.picture store.old) (S.picture store.new) }
    {
        let (across, down) = self.direction.place(along, self.number * 8 - 4);
        let mut square = store.read_square(self.plane, across, down);
        let rows = self.direction.middle(&square);
        let new = deblock_rows(quantizer, &rows);
        if is_same(&new, &rows) {
            return;
        }
        self.direction.set_middle(&mut square, &new);
        store.write_square(self.plane, across, down, &square);
    }

    // Filters the edge from here along, so many times eight places.
    fn filter_squares<S: Store>(self, store: &mut S, from: usize, count: usize, quantizer: u8)
        requires { from + 8 * count ≤ 2000000 }
        ensures { FilteredAt self.direction (edges self.plane from (from + 8 * count) self.number (self.number + 1)) (λ _ _ _. Some quantizer) (S.picture store.old) (S.picture store.new) }
    {
        for square in 0..count {
            self.filter_square(store, from + 8 * square, quantizer);
        }
    }

    // Filters the edge between two macroblocks of this number along it.
    fn filter_pair<S: Store>(self, store: &mut S, along: u16, quantizer: u8)
        ensures { FilteredAt self.direction (edge_along self.plane self.number along (along + 1)) (λ _ _ _. Some quantizer) (S.picture store.old) (S.picture store.new) }
    {
        let width = side_of(self.plane);
        let from = along as usize * width;
        self.filter_squares(store, from, width / 8, quantizer);
    }

    // The same where there is a mark, and nothing where there is none.
    fn filter_marked<S: Store>(self, store: &mut S, along: u16, mark: Option<u8>)
        ensures { FilteredAt self.direction (edge_along self.plane self.number along (along + 1)) (λ _ _ _. mark) (S.picture store.old) (S.picture store.new) }
    {
        if let Some(quantizer) = mark {
            self.filter_pair(store, along, quantizer);
        }
    }

    // Filters the edge between the macroblocks from left to before right along it, by the mark of each pair of them.
    fn filter_along<S: Store>(self, store: &mut S, marks: Marks, left: u16, right: u16)
        ensures { FilteredByMarks self.direction (edge_along self.plane self.number left right) marks.entry.cells.now marks.entry.columns (S.picture store.old) (S.picture store.new) }
    {
        for along in left..right {
            let mark = self.mark(marks, along);
            self.filter_marked(store, along, mark);
        }
    }
}

// The number of the edge that a macroblock begins with, from its number over the edges.
fn border_of(plane: u8, macroblock: u16) -> usize
    ensures value { result ≡ border plane macroblock }
    ensures few { result ≤ 131070 }
{
    macroblock as usize * (side_of(plane) / 8)
}

// The number of the first edge inside a segment that begins with this macroblock.
fn first_inside(plane: u8, macroblock: u16) -> usize
    ensures { result ≡ border plane macroblock + 1 }
{
    border_of(plane, macroblock) + 1
}

// Filters the edges of one plane inside a segment, which is given by along and over.
fn filter_plane<S: Store>(
    store: &mut S,
    marks: Marks,
    plane: u8,
    direction: Direction,
    segment: Segment,
)
    ensures { FilteredByMarks direction (λ q u v. (plane == q) && edges_in segment q u v) marks.entry.cells.now marks.entry.columns (S.picture store.old) (S.picture store.new) }
{
    for number in first_inside(plane, segment.top)..border_of(plane, segment.bottom) {
        let edge = Edge {
            plane,
            direction,
            number,
        };
        edge.filter_along(store, marks, segment.left, segment.right);
    }
}

// Filters the edges of one direction inside a segment, in all planes.
fn filter_edges<S: Store>(
    store: &mut S,
    cells: &[Option<u8>],
    direction: Direction,
    segment: Segment,
)
    ensures { S.picture store.new ≡ filtered_over (is_vertical direction) cells.now segment (S.picture store.old) }
{
    let columns = store.columns();
    let marks = Marks { cells, columns };
    let inner = direction.turn_segment(segment);
    for plane in 0..3 {
        filter_plane(store, marks, plane, direction, inner);
    }
}

// Filters the edges inside a segment by the marks of its macroblocks, the quantizers of those that were coded: the horizontal edges first, then in the result
// the vertical ones. The table has a cell for each macroblock of the picture, by rows.
pub fn deblock_segment<S: Store>(store: &mut S, marks: &[Option<u8>], segment: Segment)
    ensures after { S.picture store.new ≡ filtered marks.now segment (S.picture store.old) }
    ensures local { Local segment }
{
    filter_edges(store, marks, Direction::Horizontal, segment);
    filter_edges(store, marks, Direction::Vertical, segment);
}
