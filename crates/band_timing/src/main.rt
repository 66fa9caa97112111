// Writes, fills and copies whole CIF pictures in both stores. Prints the sums of what was copied, which are the same in every run; says how
// long it took, on the error stream, only where it is given a number of rounds.
#![tactic(auto)]

ghost use Rattle.band_timing.specs.Size.{SameSize};

use pictures::{Format, Store, copy_picture, fill_segment};
use std::env;
use std::time::Instant;
use stores::{ByteStore, TileStore};

// Gives each sample of a row of plane 0 a value of its own.
fn draw_row<S: Store>(store: &mut S, down: usize, seed: u32)
    ensures { SameSize (S.picture store.new) (S.picture store.old) }
{
    for across in 0..352 {
        store.write(
            0,
            across,
            down,
            ((across * 7 + down % 288 * 13 + seed as usize) % 256) as u8,
        );
    }
}

fn draw<S: Store>(store: &mut S, seed: u32)
    ensures { SameSize (S.picture store.new) (S.picture store.old) }
{
    for down in 0..288 {
        draw_row(store, down, seed);
    }
}

fn draw_often<S: Store>(store: &mut S, rounds: u32)
    ensures { SameSize (S.picture store.new) (S.picture store.old) }
{
    for round in 0..rounds {
        draw(store, rounds - 1 - round);
    }
}

// Fills the picture with another value each time.
fn fill_often<S: Store>(store: &mut S, rounds: u32)
    ensures { SameSize (S.picture store.new) (S.picture store.old) }
{
    for round in 0..rounds {
        fill_segment(store, Format::Cif.segment(1, 0), (round % 256) as u8);
    }
}

// Copies the picture to and fro; what the first store held is then in both.
fn copy_often<S: Store>(one: &mut S, two: &mut S, rounds: u32)
    ensures one { SameSize (S.picture one.new) (S.picture one.old) }
    ensures two { SameSize (S.picture two.new) (S.picture two.old) }
{
    for _ in 0..rounds {
        copy_picture(one, two);
        copy_picture(two, one);
    }
}

// A sum over the samples of plane 0, in which their order counts.
fn sum<S: Store>(store: &S) -> u32 {
    (0..288).fold(0u32, |above, down| {
        (0..352).fold(above, |sum, across| {
            sum.wrapping_mul(31)
                .wrapping_add(u32::from(store.sample(0, across, down)))
        })
    })
}

// The rounds asked for on the command line.
fn rounds(rt: &HostRuntime) -> anyhow::Result<Option<u32>> {
    let Some(word) = env::args(rt)?.nth(1) else {
        return Ok(None);
    };
    Ok(Some(word.as_str().parse::<u32>()?))
}

// How long some work takes, in microseconds.
fn timed<F: FnOnce()>(rt: &HostRuntime, work: F) -> anyhow::Result<u128>
    requires { F.IsAlwaysCallable work }
{
    let start = Instant::now(rt)?;
    work();
    Ok(start.elapsed(rt)?.as_micros())
}

fn run<S: Store>(
    rt: &HostRuntime,
    name: &str,
    one: &mut S,
    two: &mut S,
    asked: Option<u32>,
) -> anyhow::Result<()> {
    let rounds = asked.unwrap_or(1);
    let filled = timed(rt, || fill_often(one, rounds))?;
    let drawn = timed(rt, || draw_often(one, rounds))?;
    let copied = timed(rt, || copy_often(one, two, rounds))?;
    if asked.is_some() {
        eprintln!(rt;
            "{name}, {rounds} rounds, us: fill {filled}, write plane 0 by samples {drawn}, copy to and fro {copied}"
        )?;
    }
    println!(rt; "{name} {}", sum(two))?;
    Ok(())
}

fn main(rt: HostRuntime) -> anyhow::Result<()> {
    let heap = rt.alloc();
    let asked = rounds(&rt)?;
    let mut a = ByteStore::filled(heap, Format::Cif, 0)?;
    let mut b = ByteStore::filled(heap, Format::Cif, 0)?;
    run(&rt, "bytes", &mut a, &mut b, asked)?;
    let mut c = TileStore::filled(heap, Format::Cif, 0)?;
    let mut d = TileStore::filled(heap, Format::Cif, 0)?;
    run(&rt, "tiles", &mut c, &mut d, asked)
}
