//! The workloads of bench/workloads.txt: `tp_bench_work NAME SEED [PERCENT]` does the workload of the name, of its usual
//! size or `PERCENT` hundredths of it, and prints a digest of all that its calls answered. Each seed gives another
//! input of the same kind and size. Without words it does a hundredth of each.
#![tactic(auto)]

mod author;
mod chance;
mod crowd;
mod digest;
mod meeting;
mod opening;
mod past;
mod peers;
mod script;
mod size;
mod typing;

use crate::digest::Digest;
use crate::size::Size;
use anyhow::bail;
use std::env;
use std::rt::Env;

const NAMES: [&str; 6] = ["typing", "open", "sync", "crowd", "past", "simulate"];

fn main(rt: HostRuntime) -> anyhow::Result<()> {
    run(&rt)
}

fn run<R: Env + Print + AllocGlobal>(rt: &R) -> anyhow::Result<()> {
    let words: Vec<String> = env::args(rt)?.collect(rt.alloc())?;
    match words.as_slice() {
        [_, name, seed] => run_named(rt, name.as_str(), Size::of(seed.as_str(), "100")?),
        [_, name, seed, percent] => {
            run_named(
                rt,
                name.as_str(),
                Size::of(seed.as_str(), percent.as_str())?,
            )
        }
        _ => run_all(rt),
    }
}

// Does a hundredth of each.
fn run_all<R: Print + AllocGlobal>(rt: &R) -> anyhow::Result<()> {
    for name in NAMES {
        run_named(rt, name, Size::of("1", "1")?)?;
    }
    Ok(())
}

// Does the workload of the name, and prints the digest.
fn run_named<R: Print + AllocGlobal>(rt: &R, name: &str, size: Size) -> anyhow::Result<()> {
    let mut digest = Digest::new();
    let alloc = rt.alloc();
    match name {
        "typing" => typing::run(alloc, size, &mut digest)?,
        "open" => opening::run(alloc, size, &mut digest)?,
        "sync" => meeting::run(alloc, size, &mut digest)?,
        "crowd" => crowd::run(alloc, size, &mut digest)?,
        "past" => past::run(alloc, size, &mut digest)?,
        "simulate" => script::run(alloc, size, &mut digest)?,
        _ => bail!("no workload has this name"),
    }
    let value = digest.value();
    Ok(println!(rt; "{name} {value:016x}")?)
}
