// The standard's generator of random blocks.
ghost use Rattle.std.specs.Prelude.{◌≡◌};
ghost use Rattle.conformance.specs.Draws.{drawn, stepped, stepped_by};

use std::fmt;

// Numbers from -low to high.
#[derive(Clone, Copy)]
pub struct Range {
    pub low: u16,
    pub high: u16,
}

// What the blocks of one measurement are drawn from: a range, and whether every sign is turned.
#[derive(Clone, Copy)]
pub struct Series {
    pub range: Range,
    pub turned: bool,
}

impl fmt::Display for Series {
    fn fmt<W: fmt::Write>(&self, f: &mut fmt::Formatter<W>) -> fmt::Result {
        let sign = if self.turned { '-' } else { '+' };
        let low = self.range.low;
        let high = self.range.high;
        write!(f, "{sign} -{low}..{high}")
    }
}

#[derive(Drop)]
pub struct Generator {
    state: u32,
}

impl Generator {
    // As the standard starts it.
    pub fn new() -> Generator
        ensures { result.state ≡ 1 }
    {
        Generator { state: 1 }
    }

    // One more number.
    fn draw(&mut self, range: Range) -> i32
        ensures state { self.new.state ≡ stepped self.old.state }
        ensures value { result ≡ drawn (stepped self.old.state) range.low range.high }
    {
        self.state = step(self.state);
        number(self.state, range)
    }

    // A block by rows, with every sign turned where the series asks it. It takes 64 numbers from the generator, turned or not.
    pub fn block(&mut self, series: Series) -> [f64; 64]
        ensures { self.new.state ≡ stepped_by 64 self.old.state }
    {
        let sign = if series.turned { -1.0 } else { 1.0 };
        let mut samples = [0.0; 64];
        for sample in &mut samples {
            *sample = sign * f64::from(self.draw(series.range));
        }
        samples
    }
}

fn step(state: u32) -> u32
    ensures { result ≡ stepped state }
{
    state.wrapping_mul(1103515245).wrapping_add(12345)
}

// The number that a state stands for. The standard's text divides and multiplies in floating point, and drops the fraction. Whole numbers
// give the same: a fraction here is a multiple of 1 / (2^31 - 1), and floating point errs by far less than that.
fn number(state: u32, range: Range) -> i32
    ensures { result ≡ drawn state range.low range.high }
{
    let count = u64::from(range.low) + u64::from(range.high) + 1;
    let part = u64::from(state % 0x8000_0000) * count / 0x7fff_ffff;
    part as i32 - i32::from(range.low)
}
