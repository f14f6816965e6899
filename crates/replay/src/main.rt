//! Plays a script of calls from standard input, one a line, and prints what each gave.
#![tactic(auto)]

mod kinds;
mod play;
mod show;

use crate::play::Session;
use std::io::Read;

fn run(rt: &HostRuntime) -> anyhow::Result<()> {
    let mut script = Vec::new(rt.alloc());
    rt.stdin().read_to_end(&mut script)?;
    let mut session = Session::new(rt);
    session.play_script(script.as_slice())?;
    session.sum_up()?;
    Ok(())
}

fn main(rt: HostRuntime) -> anyhow::Result<()> {
    run(&rt)
}
