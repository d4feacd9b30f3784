// Reads a batch from standard input and gives an account of what can be said of it so far: its roster, how many of its jobs
// a book accepted, and how it ended.
#![tactic(auto)]

use account::{LONGEST_TEXT, print_account};
use anyhow::Context;
use refusals::Refusal;
use std::io::Read;
use std::process::ExitCode;
use steps::Name;

mod account;
mod declined;

fn main(rt: HostRuntime) -> anyhow::Result<ExitCode> {
    // One byte past the longest text is enough to see that there is more.
    let mut text = Vec::new(rt.alloc());
    rt.stdin()
        .take(LONGEST_TEXT as u64 + 1)
        .read_to_end(&mut text)?;
    let tick = Name::new(b"TICK").context("TICK is no name")?;
    let Err(declined) = print_account(&rt, text.as_slice(), tick)? else {
        return Ok(ExitCode::SUCCESS);
    };
    let refusal = Refusal::from(declined);
    println!(rt; "{refusal}")?;
    eprintln!(rt; "flownet: {declined}")?;
    Ok(ExitCode::FAILURE)
}
