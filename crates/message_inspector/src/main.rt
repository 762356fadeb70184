// Reads messages from standard input and says in plain words what they are.
#![tactic(auto)]

use anyhow::Context;
use inspection::Kinds;
use std::env::{self, Env};
use std::io::{Read, Write};

const USAGE: &str = "usage: message_inspector [pair|ticket] [character|register] < words";

// The kinds that the user's words choose.
fn kinds(rt: &(impl Env + Alloc)) -> anyhow::Result<Kinds> {
    let mut kinds = Kinds::default();
    for word in env::args(rt)?.skip(1) {
        kinds = kinds.choose(&word).context(USAGE)?;
    }
    Ok(kinds)
}

fn run(rt: &HostRuntime) -> anyhow::Result<()> {
    let kinds = kinds(rt)?;
    let mut bytes = Vec::new(rt.alloc());
    rt.stdin().read_to_end(&mut bytes)?;
    let text = kinds.report(rt.alloc(), &bytes)?;
    let mut out = rt.stdout();
    out.write_all(&text)?;
    out.flush()?;
    Ok(())
}

fn main(rt: HostRuntime) -> anyhow::Result<()> {
    run(&rt)
}
