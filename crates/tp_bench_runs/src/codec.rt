//! Decoding and encoding, beside the digest of the same bytes.

use sha2::{Digest, Sha256};
use std::alloc::Global;
use std::rt::Clock;
use tp_bench_measure::{Stopwatch, change, element_of, report, run_after};
use tp_change::{Change, Record};
use tp_list::Text;
use tp_opid::{Hash, Place};

const SMALL_ROUNDS: u64 = 100_000;

const LARGE_ROUNDS: u64 = 16;

/// Over 100,000 changes of 60 bytes, and over 16 of 4 megabytes.
pub fn run<R: Clock + Print + AllocGlobal>(rt: &R) -> anyhow::Result<()> {
    measure_small(rt)?;
    measure_large(rt)
}

fn measure_small<R: Clock + Print + AllocGlobal>(rt: &R) -> anyhow::Result<()> {
    let records = run_after(rt.alloc(), Place::Start, "abcde")?;
    let small = change(rt.alloc(), 1, 1, Vec::new(rt.alloc()), records)?;
    measure_all(rt, "small", &small, SMALL_ROUNDS)
}

fn measure_large<R: Clock + Print + AllocGlobal>(rt: &R) -> anyhow::Result<()> {
    let large = large_change(rt.alloc())?;
    measure_all(rt, "large", &large, LARGE_ROUNDS)
}

// 65,000 dependencies and 60,000 inserts of one character of four bytes: some 4.1 megabytes.
fn large_change(alloc: Global) -> anyhow::Result<Change> {
    let mut deps = Vec::new(alloc);
    for number in 0..65_000u32 {
        let [a, b, c, d] = number.to_be_bytes();
        let mut bytes = [0; 32];
        bytes[0] = a;
        bytes[1] = b;
        bytes[2] = c;
        bytes[3] = d;
        deps.push(Hash(bytes))?;
    }
    let mut records = Vec::new(alloc);
    for counter in 0..60_000u64 {
        let after = Place::After(element_of(counter));
        let text = Text::new(String::from_str(alloc, "😀")?);
        records.push(Record::Insert { after, text })?;
    }
    change(alloc, 1, 1, deps, records)
}

fn measure_all<R: Clock + Print + AllocGlobal>(
    rt: &R,
    size: &str,
    change: &Change,
    rounds: u64,
) -> anyhow::Result<()> {
    let bytes = change.encode()?;
    let total = (bytes.len() as u64).saturating_mul(rounds);
    println!(rt; "{size}: {rounds} changes of {} bytes", bytes.len())?;
    report(
        rt,
        "digest alone",
        total,
        digest(rt, bytes.as_slice(), rounds)?,
    )?;
    report(rt, "decode", total, decode(rt, bytes.as_slice(), rounds)?)?;
    report(rt, "encode", total, encode(rt, change, rounds)?)
}

fn digest<R: Clock>(rt: &R, bytes: &[u8], rounds: u64) -> anyhow::Result<u64> {
    let watch = Stopwatch::start(rt);
    let mut seen = 0u8;
    for _ in 0..rounds {
        seen ^= Sha256::digest(bytes)[0];
    }
    let micros = watch.micros(rt);
    Ok(micros.saturating_add(u64::from(seen) / 256))
}

fn decode<R: Clock + AllocGlobal>(rt: &R, bytes: &[u8], rounds: u64) -> anyhow::Result<u64> {
    let watch = Stopwatch::start(rt);
    for _ in 0..rounds {
        let _change = Change::decode(rt.alloc(), bytes)?;
    }
    Ok(watch.micros(rt))
}

fn encode<R: Clock>(rt: &R, change: &Change, rounds: u64) -> anyhow::Result<u64> {
    let watch = Stopwatch::start(rt);
    for _ in 0..rounds {
        let _bytes = change.encode()?;
    }
    Ok(watch.micros(rt))
}
