// The standard's accuracy test of inverse transforms: 10,000 random blocks for each of three ranges, and the same with every sign turned, go
// through a forward transform in floating point; of the coefficients, whole and within their range, the transform under test and an
// inverse in floating point make results that may differ only within limits.
#![tactic(auto)]

mod draws;
mod errors;
mod reference;

use anyhow::anyhow;
use draws::{Generator, Range, Series};
use errors::{Errors, Totals, is_accurate, totals_of};
use reference::Reference;
use transform::{Direct, Transform, TwoPass};

const RANGES: [Range; 3] = [
    Range {
        low: 256,
        high: 255,
    },
    Range { low: 5, high: 5 },
    Range {
        low: 300,
        high: 300,
    },
];

fn note_block(errors: &mut [Errors; 64], got: &[i16; 64], want: &[i16; 64]) {
    for ((here, got), want) in errors.iter_mut().zip(got).zip(want) {
        *here = here.note(*got, *want);
    }
}

fn measure<X: Transform>(transform: &X, reference: &Reference, series: Series) -> Totals {
    let mut generator = Generator::new();
    let mut errors = [Errors::default(); 64];
    for _ in 0..10_000 {
        let coefficients = reference.forward(&generator.block(series));
        note_block(
            &mut errors,
            &transform.inverse(&coefficients),
            &reference.inverse(&coefficients),
        );
    }
    totals_of(&errors)
}

// Whether zeros go to zeros.
fn keeps_zeros<X: Transform>(transform: &X) -> bool {
    transform.inverse(&[0; 64]) == [0; 64]
}

fn print_totals(rt: &impl Print, series: Series, m: Totals) -> anyhow::Result<()> {
    let square = f64::from(m.square) / 10_000.0;
    let mean = f64::from(m.mean) / 10_000.0;
    let squares = std::num::nearest_u64_to_f64(m.squares) / 640_000.0;
    let means = std::num::nearest_u64_to_f64(m.means()) / 640_000.0;
    let peak = m.peak;
    println!(rt;
        "  {series}: peak {peak} (1), mean square {square:.4} (0.06), over all {squares:.6} (0.02), mean {mean:.4} (0.015), over all {means:.6} (0.0015)"
    )?;
    Ok(())
}

// Prints the figures, each beside its limit, and says whether all limits are kept.
fn accurate<X: Transform>(
    rt: &impl Print,
    name: &str,
    transform: &X,
    reference: &Reference,
) -> anyhow::Result<bool> {
    println!(rt; "{name}")?;
    let mut measured = [Totals::default(); 6];
    for (i, totals) in measured.iter_mut().enumerate() {
        let series = Series {
            range: RANGES[i / 2],
            turned: i % 2 == 1,
        };
        *totals = measure(transform, reference, series);
        print_totals(rt, series, *totals)?;
    }
    Ok(is_accurate(keeps_zeros(transform), &measured))
}

fn run(rt: &impl Print) -> anyhow::Result<()> {
    let reference = Reference::new();
    let two_pass = accurate(rt, "two-pass", &TwoPass, &reference)?;
    let direct = accurate(rt, "direct", &Direct, &reference)?;
    if two_pass && direct {
        Ok(())
    } else {
        Err(anyhow!("a limit is passed"))
    }
}

fn main(rt: HostRuntime) -> anyhow::Result<()> {
    run(&rt)
}
