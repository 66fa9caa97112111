// Prediction of a square of samples. Coordinates are kept 64 above their value, so that they are never below 0 while they are moved.
ghost use Rattle.std.specs.Prelude.{◌≡◌, ◌+◌, ◌*◌, ◌<◌, ◌≤◌, ◌&&◌, ℤ, pos, ◌+ℤ◌, ◌-ℤ◌, nat_le};
ghost use Rattle.pictures.specs.Pictures.{side};
ghost use Rattle.samples.specs.Prediction.{rounding_of};
ghost use Rattle.transform.specs.Sums.{floor};
ghost use Rattle.prediction.specs.Window.{PredictsSquare, ShowsSquare, brought_inside, is_half, window};

use pictures::{Segment, Store, side_of};
use samples::{Rounding, squares_between_four, squares_between_two};

// A component's half samples, 128 above their value.
fn half_steps(component: i8) -> usize
    ensures value { pos result ≡ component +ℤ pos 128 }
    ensures small { result ≤ 255 }
{
    (i16::from(component) + 128) as usize
}

// Whether a component ends in a half step.
fn is_half(component: i8) -> bool
    ensures { result ≡ is_half component }
{
    half_steps(component) % 2 == 1
}

// A coordinate moved by the whole samples of a component, 64 above its value. (That it is small is asked of those who call this, one within another; their
// coordinates are counted in machine words, as the stores take them.)
fn moved(coordinate: usize, component: i8) -> usize
    requires { coordinate ≤ 65535 }
    ensures value { pos result ≡ pos coordinate +ℤ floor component 2 +ℤ pos 64 }
    ensures small { result ≤ 65800 }
{
    coordinate + half_steps(component) / 2
}

// A coordinate that is 64 above its value, brought from low to before high.
fn bring_inside(low: usize, high: usize, coordinate: usize) -> usize
    requires some { low < high }
    requires few { high ≤ 65535 }
    ensures { result ≡ brought_inside low high (pos coordinate -ℤ pos 64) }
{
    coordinate.min(high + 63).max(low + 64) - 64
}

// A coordinate of a plane, 64 above its value, brought into the macroblocks from low to before high.
fn bring_into_segment(plane: u8, low: u16, high: u16, coordinate: usize) -> usize
    requires some { low < high }
    requires few { high ≤ 22 }
    ensures { result ≡ brought_inside (low * side plane) (high * side plane) (pos coordinate -ℤ pos 64) }
{
    let side = side_of(plane);
    bring_inside(low as usize * side, high as usize * side, coordinate)
}

// Whether eight coordinates of a plane from one on, which is 64 above its value, lie inside the macroblocks from low to before high.
fn lies_inside(plane: u8, low: u16, high: u16, coordinate: usize) -> bool
    requires { coordinate ≤ 65801 }
    ensures { result ≡ (nat_le (low * side plane + 64) coordinate && nat_le (coordinate + 8) (high * side plane + 64)) }
{
    let side = side_of(plane);
    low as usize * side + 64 <= coordinate && coordinate + 8 <= high as usize * side + 64
}

// What a segment is predicted from: the finished picture, of which it sees no more than what lies inside the segment. A segment has a macroblock
// at least, and no more across and down than the largest picture.
#[derive(Drop)]
pub struct Window<'a, S> {
    pub finished: &'a S,
    pub segment: Segment,
    pub rounding: Rounding,
    pub ghost some_columns: { segment.left < segment.right },
    pub ghost few_columns: { segment.right ≤ 22 },
    pub ghost some_rows: { segment.top < segment.bottom },
    pub ghost few_rows: { segment.bottom ≤ 22 },
}

impl<S: Store> Window<'_, S> {
    // The finished picture as the segment sees it, at coordinates that are 64 above their value.
    fn sample(&self, plane: u8, across: usize, down: usize) -> u8
        ensures { result ≡ window self.now.segment (S.picture self.now.finished.now).sample plane (pos across -ℤ pos 64) (pos down -ℤ pos 64) }
    {
        let Segment {
            left,
            right,
            top,
            bottom,
        } = self.segment;
        self.finished.sample(
            plane,
            bring_into_segment(plane, left, right, across),
            bring_into_segment(plane, top, bottom, down),
        )
    }

    // The square of 8 by 8 samples as the segment sees them, from coordinates that are 64 above their value on, by rows: at once where it lies inside the segment.
    fn square(&self, plane: u8, across: usize, down: usize) -> [u8; 64]
        requires across { across ≤ 65801 }
        requires down { down ≤ 65801 }
        ensures { ShowsSquare result self.now.segment (S.picture self.now.finished.now).sample plane across down }
    {
        let Segment {
            left,
            right,
            top,
            bottom,
        } = self.segment;
        if lies_inside(plane, left, right, across) && lies_inside(plane, top, bottom, down) {
            return self.finished.read_square(plane, across - 64, down - 64);
        }
        self.square_by_samples(plane, across, down)
    }

    // The same, sample by sample.
    fn square_by_samples(&self, plane: u8, across: usize, down: usize) -> [u8; 64]
        requires across { across ≤ 65801 }
        requires down { down ≤ 65801 }
        ensures { ShowsSquare result self.now.segment (S.picture self.now.finished.now).sample plane across down }
    {
        let mut square = [0; 64];
        for row in 0..8 {
            for column in 0..8 {
                square[8 * row + column] = self.sample(plane, across + column, down + row);
            }
        }
        square
    }

    // The predictions at the places of a square of 8 by 8, by rows, for a vector of so many half samples across and down. (Only the neighbours that count are read.)
    pub fn predict_square(&self, plane: u8, x: usize, y: usize, across: i8, down: i8) -> [u8; 64]
        requires across { x ≤ 65535 }
        requires down { y ≤ 65535 }
        ensures { PredictsSquare result self.now.segment (rounding_of self.now.rounding) (S.picture self.now.finished.now).sample plane x y across down }
    {
        let u = moved(x, across);
        let v = moved(y, down);
        let here = self.square(plane, u, v);
        match (is_half(across), is_half(down)) {
            (false, false) => here,
            (true, false) => squares_between_two(
                self.rounding,
                &here,
                &self.square(plane, u + 1, v),
            ),
            (false, true) => squares_between_two(
                self.rounding,
                &here,
                &self.square(plane, u, v + 1),
            ),
            (true, true) => squares_between_four(
                self.rounding,
                &here,
                &self.square(plane, u + 1, v),
                &self.square(plane, u, v + 1),
                &self.square(plane, u + 1, v + 1),
            ),
        }
    }
}
