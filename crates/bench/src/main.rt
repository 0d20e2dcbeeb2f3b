//! Asks a paired arrangement at its limits, and prints what the answers add up to: the same at each run.
//!
//! With the word `time` it asks far more often, and prints also how long an answer takes.

#![tactic(auto)]

use anyhow::anyhow;
use arrangement::{Arrangement, Refusal};
use paired::store::Paired;
use search::entry::Reached;
use std::time::{Duration, Instant};
use std::{env, io};
use timing::{asks_for_times, each};

/// All names in a row, each paired with the next, again and again until there is room for no pairing more: the farthest names
/// are as far apart as can be, and each step of a search goes through as many pairings as can be.
fn longest_row() -> Result<Paired, Refusal> {
    let mut held = Paired::new();
    held.set_count(64)?;
    for k in 0..=255u8 {
        held.pair(k % 63, k % 63 + 1)?;
    }
    Ok(held)
}

/// The distance that a search found. All names of the row are joined, so nothing else is found there.
fn found(answer: Result<Option<u8>, Refusal>) -> u8 {
    answer.ok().flatten().unwrap_or(0)
}

/// Each two names in turn.
fn two_names(k: u32) -> (u8, u8) {
    ((k % 64) as u8, (k / 64 % 64) as u8)
}

/// From one end of the row to the other and back.
fn both_ends(k: u32) -> (u8, u8) {
    if k % 2 == 0 { (0, 63) } else { (63, 0) }
}

/// Asks so often, of the names that are picked, and adds up the answers.
// Each program has its own: a public one would need a `requires` for the closure.
fn sum_of<Q: Fn(u8, u8) -> u8, P: Fn(u32) -> (u8, u8)>(question: &Q, pick: P, times: u32) -> u64
    requires question { Q.IsAlwaysCallable question.now }
    requires pick { P.IsAlwaysCallable pick }
{
    (0..times).fold(0u64, |sum, k| {
        let (i, j) = pick(k);
        sum.wrapping_add(u64::from(question(i, j)))
    })
}

/// Prints what the answers for each two names, and those for both ends, add up to.
// The handle, the label and how often are parameters of all that print: a struct of them would only be taken apart again.
fn print_sums<Q: Fn(u8, u8) -> u8>(
    rt: &HostRuntime,
    label: &str,
    question: &Q,
    times: u32,
) -> io::Result<()>
    requires { Q.IsAlwaysCallable question.now }
{
    let all = sum_of(question, two_names, times);
    println!(rt; "{label}, each two names, asked {times} times: sum {all}")?;
    let ends = sum_of(question, both_ends, times);
    println!(rt; "{label}, both ends, asked {times} times: sum {ends}")
}

/// Prints what the answers add up to, without which they need not be worked out, and how long each took. The fastest take
/// about a nanosecond, so three digits more are printed.
fn print_time(
    rt: &HostRuntime,
    label: &str,
    times: u32,
    sum: u64,
    spent: Duration,
) -> io::Result<()> {
    let call = each(spent.as_nanos().saturating_mul(1000), times);
    println!(rt; "{label}, asked {times} times: sum {sum}, {call} ns a call")
}

/// Measures the answers for each two names, and those for both ends.
fn print_times<Q: Fn(u8, u8) -> u8>(
    rt: &HostRuntime,
    label: &str,
    question: &Q,
    times: u32,
) -> io::Result<()>
    requires { Q.IsAlwaysCallable question.now }
{
    rt.println(label)?;
    let start = Instant::now(rt)?;
    let all = sum_of(question, two_names, times);
    print_time(rt, "- each two names", times, all, start.elapsed(rt)?)?;
    let start = Instant::now(rt)?;
    let ends = sum_of(question, both_ends, times);
    print_time(rt, "- both ends", times, ends, start.elapsed(rt)?)
}

fn main(rt: HostRuntime) -> anyhow::Result<()> {
    let Ok(held) = longest_row() else {
        return Err(anyhow!("no room for the row"));
    };
    let same = |i, j| u8::from(held.same(i, j));
    let why = |i, j| found(held.why(i, j));
    let why_measured = |i, j| found(held.why_by::<Reached>(i, j));
    print_sums(&rt, "same", &same, 4096)?;
    print_sums(&rt, "why", &why, 4096)?;
    print_sums(&rt, "why_measured", &why_measured, 4096)?;
    if env::args(&rt)?.any(|word| asks_for_times(word.as_str())) {
        print_times(&rt, "same", &same, 1_000_000)?;
        print_times(&rt, "why", &why, 10_000)?;
        print_times(&rt, "why_measured", &why_measured, 10_000)?;
    }
    Ok(())
}
