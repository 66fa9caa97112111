ghost use Rattle.std.specs.List.{count_by, range_with_len};
ghost use Rattle.std.specs.Prelude.{◌≡◌, ℕ, nat_lt, ◌+◌, ◌^◌, ◌<◌, ◌≤◌, true, false, Decides};
ghost use Rattle.pictures.specs.Formats.{rows_of};
ghost use Rattle.pictures.specs.Segments.{Segmented, has_bit, rows_before, segment_at, segment_count, segment_of_row, sound};

use crate::formats::Format;

// A rectangle of macroblocks: the columns from left to before right, the rows from top to before bottom.
#[derive(Clone, Copy, PartialEq, Eq, Debug)]
pub struct Segment {
    pub left: u16,
    pub right: u16,
    pub top: u16,
    pub bottom: u16,
}

// Whether a number has the bit of this place: a layout, or the marks of a picture's segments. No number has a bit at 32 or above.
#[tactic(auto, unfolding(crate::specs::Segments::has_bit))]
pub fn has_bit(layout: u32, bit: u32) -> bool
    ensures { result ≡ has_bit layout bit }
{
    match layout.checked_shr(bit) {
        Some(rest) => rest % 2 == 1,
        None => false,
    }
}

// How many segments begin below row 0 and not below this row.
fn begun(layout: u32, row: u16) -> usize
    ensures counted { result ≡ count_by (λ above. has_bit layout (above + 1)) (range_with_len 0 row) }
    ensures few { result ≤ row }
{
    (0..row)
        .filter(|above| has_bit(layout, u32::from(*above) + 1))
        .count()
}

// The number of the segment that a row belongs to.
fn segment_of_row(layout: u32, row: u16) -> u32
    ensures value { result ≡ segment_of_row layout row }
    ensures few { result ≤ row }
{
    begun(layout, row) as u32
}

// Of so many rows, how many belong to a segment with a lower number.
fn rows_below(layout: u32, number: u64, rows: u16) -> usize
    ensures counted { result ≡ count_by (λ row. nat_lt (segment_of_row layout row) number) (range_with_len 0 rows) }
    ensures few { result ≤ rows }
{
    (0..rows)
        .filter(|row| u64::from(segment_of_row(layout, *row)) < number)
        .count()
}

// The row that a segment begins at, if it is one of so many rows, and else their number.
fn rows_before(layout: u32, number: u64, rows: u16) -> u16
    ensures value { result ≡ rows_before layout number rows }
    ensures few { result ≤ rows }
{
    rows_below(layout, number, rows) as u16
}

impl Format {
    // The least number with a bit at or above the row count.
    fn layout_limit(self) -> u32
        ensures { result ≡ 2 ^ rows_of self }
    {
        1 << self.rows()
    }

    // Whether a layout is sound: bit 0 is set, and no bit at or above the row count.
    pub fn is_sound(self, layout: u32) -> bool
        ensures value { result ≡ sound self layout }
        ensures bits { Decides result ((has_bit layout 0 ≡ true) × ((row : ℕ) → rows_of self ≤ row → has_bit layout row ≡ false)) }
    {
        has_bit(layout, 0) && layout < self.layout_limit()
    }

    // How many segments a layout makes.
    pub fn segments(self, layout: u32) -> u32
        ensures value { result ≡ segment_count self layout }
        ensures laws { Segmented self layout }
        ensures few { result ≤ 18 }
    {
        segment_of_row(layout, self.rows() - 1) + 1
    }

    // The number of the segment that a macroblock row of the picture belongs to.
    pub fn segment_of_row(self, layout: u32, row: u16) -> u32
        ensures value { result ≡ segment_of_row layout row }
        ensures inside { row < rows_of self → result < segment_count self layout }
    {
        segment_of_row(layout, row)
    }

    // A segment by its number; one that the picture does not have is empty.
    pub fn segment(self, layout: u32, number: u32) -> Segment
        ensures value { result ≡ segment_at self layout number }
        ensures within { (result.left ≤ result.right) × ((result.right ≤ 22) × ((result.top ≤ result.bottom) × (result.bottom ≤ 18))) }
    {
        let rows = self.rows();
        Segment {
            left: 0,
            right: self.columns(),
            top: rows_before(layout, number as u64, rows),
            bottom: rows_before(layout, number as u64 + 1, rows),
        }
    }
}
