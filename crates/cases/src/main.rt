// Plays recorded scripts in both stores, and holds the answers against those that are expected.
// The arguments name the cases: NAME stands for the files NAME.script and NAME.expected.
#![tactic(auto)]

ghost use Rattle.std.specs.Prelude.{◌≡◌, true, false, Ok, length, is_ok};
ghost use Rattle.script.specs.Fields.{lines_of};
ghost use Rattle.std.specs.Str.{bytes_eq};

use anyhow::anyhow;
use call_lines::line::StoreKind;
use player::play;
use script::fields::{is_text, lines_of};
use std::str::from_utf8;
use std::{env, fs};

// The number of the first line in which two texts differ, or of the last line of one.
fn find_difference(answers: &[u8], expected: &[u8]) -> usize {
    lines_of(answers)
        .zip(lines_of(expected))
        .take_while(|(answer, due)| answer == due)
        .count()
        .saturating_add(1)
}

// How many lines answers have that are as expected, byte for byte, or the number of the first line that is not.
fn compare(answers: &[u8], expected: &[u8]) -> Result<usize, usize>
    ensures same { bytes_eq answers.now expected.now ≡ true → result ≡ Ok (length (lines_of expected.now)) }
    ensures different { bytes_eq answers.now expected.now ≡ false → is_ok result ≡ false }
{
    if is_text(answers, expected) {
        Ok(lines_of(expected).count())
    } else {
        Err(find_difference(answers, expected))
    }
}

// A line of a text by its number, from 1 on; empty after the last.
fn line_at(text: &[u8], number: usize) -> &[u8] {
    lines_of(text).nth(number.saturating_sub(1)).unwrap_or(b"")
}

// A line as text, where it is such.
fn shown(line: &[u8]) -> &str {
    from_utf8(line).unwrap_or("no text")
}

// Plays a case in one store.
fn play_case(
    rt: &HostRuntime,
    label: &str,
    store: StoreKind,
    script: &[u8],
    expected: &[u8],
) -> anyhow::Result<()> {
    let answers = play(rt.alloc(), script, store)?;
    match compare(answers.as_bytes(), expected) {
        Ok(lines) => {
            println!(rt; "{label}: {lines} lines as expected")?;
            Ok(())
        }
        Err(number) => {
            let answer = shown(line_at(answers.as_bytes(), number));
            let due = shown(line_at(expected, number));
            println!(rt; "{label}: line {number} is '{answer}' and not '{due}'")?;
            Err(anyhow!("an answer is not as expected"))
        }
    }
}

// Plays a case in both stores.
fn play_stores(rt: &HostRuntime, name: &str) -> anyhow::Result<()> {
    let heap = rt.alloc();
    let script = fs::read(rt, format!(in heap; "{name}.script")?)?;
    let expected = fs::read(rt, format!(in heap; "{name}.expected")?)?;
    let script = script.as_slice();
    let expected = expected.as_slice();
    let bytes = format!(in heap; "{name} bytes")?;
    play_case(rt, bytes.as_str(), StoreKind::Bytes, script, expected)?;
    let tiles = format!(in heap; "{name} tiles")?;
    play_case(rt, tiles.as_str(), StoreKind::Tiles, script, expected)
}

fn run(rt: &HostRuntime) -> anyhow::Result<()> {
    for name in env::args(rt)?.skip(1) {
        play_stores(rt, name.as_str())?;
    }
    Ok(())
}

fn main(rt: HostRuntime) -> anyhow::Result<()> {
    run(&rt)
}
