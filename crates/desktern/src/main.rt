// Reads a script of calls from standard input, plays it and prints the answers.
#![tactic(auto)]

use call_lines::line::StoreKind;
use player::play;
use std::io::Read;

fn run(rt: &HostRuntime) -> anyhow::Result<()> {
    let mut script = Vec::new(rt.alloc());
    rt.stdin().read_to_end(&mut script)?;
    let answers = play(rt.alloc(), script.as_slice(), StoreKind::Bytes)?;
    rt.print(answers)?;
    Ok(())
}

fn main(rt: HostRuntime) -> anyhow::Result<()> {
    run(&rt)
}
