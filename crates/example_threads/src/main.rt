//! Three threads report scopes while a fourth takes frames. Proved: the frames, and then what is pending, show just the scopes of
//! each of the three, in order.
#![tactic(auto)]

mod record;

ghost use Rattle.std.specs.Prelude.{◌≡◌, IfOk, string_bytes};

use history::NewLog;
use puffin::global_profiler::Settled;
use record::{Job, record};
use std::alloc::{AllocError, Global};
use std::marker::Brand;
use std::sync::ledger::Blank;

/// A job with this name and these texts.
fn job(alloc: Global, name: &str, texts: &[&str]) -> Result<Job, AllocError>
    ensures { IfOk result (λ job. string_bytes job.name ≡ name.now) }
{
    let mut owned = Vec::new(alloc);
    for text in texts {
        owned.push(String::from_str(alloc, text)?)?;
    }
    Ok(Job {
        name: String::from_str(alloc, name)?,
        texts: owned,
    })
}

fn main(rt: HostRuntime) -> anyhow::Result<()> {
    let alloc = rt.alloc();
    let jobs = (
        job(alloc, "loader", &["map", "sprites", "sounds"])?,
        job(alloc, "painter", &["sky", "ground", "sprites", "text"])?,
        job(alloc, "mixer", &["sounds", "voices"])?,
    );
    let (reported, handed) = (Blank::new(4), Blank::new(4));
    let log = NewLog::new();
    let recorded = record::<Brand, Brand, HostRuntime>(rt, jobs, reported, handed, log)?;
    let Settled {
        handed,
        pending,
        ..
    } = recorded.settled;
    println!(rt; "{handed} scopes in frames, {pending} pending")?;
    Ok(())
}
