//! Decides lists of statements of three kinds and three lengths, and prints what comes out: the same at each run.
//!
//! With the word `time` it also prints how long an answer takes.

#![tactic(auto)]

mod counting;
mod lists;

use anyhow::anyhow;
use arrangement::{Classed, Refusal};
use column::Naming;
use counting::decisions;
use decision::{cited, fits};
use lists::{Kind, list};
use paired::store::Paired;
use questions::told;
use standing::{Room, Standing};
use statement::{Slot, Statement, Table};
use std::alloc::{AllocError, Global};
use std::time::Instant;
use std::{env, io};
use timing::{asks_for_times, each};

/// 64 slots and 64 readings, each with one name.
// As in the tests of decisions, which a program cannot use.
fn separate_names() -> Result<Naming, Refusal> {
    let mut names = Paired::new();
    names.set_count(64)?;
    let classes = Classed::of(names).classes;
    Ok(Naming {
        slots: classes,
        readings: classes,
    })
}

/// Prints whether the list fits, with and without the offered statement, what is cited, and after how many decisions.
fn print_answers(
    rt: &HostRuntime,
    naming: &Naming,
    kind: Kind,
    xs: &[Statement],
) -> anyhow::Result<()> {
    let offered = kind.offered();
    let count = xs.len();
    let alone = xs.first().is_none_or(|first| fits(naming, *first, &[], xs));
    let both = fits(naming, offered, &[], xs);
    let found = cited(naming, offered, xs);
    let cites = found.count;
    let asked = decisions(count, &found);
    let standing = stand(rt.alloc(), naming, xs)?;
    let links = sum_of(128, |k| distance_told(&standing, k));
    println!(rt;
        "{kind}, {count} statements: fit {alone}, with the offered one {both}, {cites} cited after {asked} decisions, told over {links} links"
    )?;
    Ok(())
}

/// The list as standing statements, as many of them as fit.
fn stand(heap: Global, naming: &Naming, xs: &[Statement]) -> Result<Standing, AllocError> {
    let mut standing = Standing::new(Room::new(heap)?, *naming);
    let _ = standing.open(128);
    for x in xs {
        let _ = standing.add(*x);
    }
    Ok(standing)
}

/// Asks so often, and adds up the answers.
// Each program has its own: a public one would need a `requires` for the closure.
fn sum_of<F: Fn(u32) -> u32>(times: u32, ask: F) -> u32
    requires { F.IsAlwaysCallable ask }
{
    (0..times).fold(0u32, |sum, k| sum.wrapping_add(ask(k)))
}

/// How far away is what is told at slot 7, of each table in turn.
fn distance_told(standing: &Standing, k: u32) -> u32 {
    let table = Table((k % 128) as u8);
    told(standing, table, Slot(7)).map_or(0, |(_, distance)| u32::from(distance))
}

/// Asks so often, and prints how long each call took, in microseconds.
fn print_time<F: Fn(u32) -> u32>(
    rt: &HostRuntime,
    label: &str,
    times: u32,
    ask: F,
) -> io::Result<()>
    requires { F.IsAlwaysCallable ask }
{
    let start = Instant::now(rt)?;
    let sum = sum_of(times, ask);
    let call = each(start.elapsed(rt)?.as_nanos(), times);
    println!(rt; "- {label}: {call} us a call (sum {sum})")
}

fn print_times(rt: &HostRuntime, naming: &Naming, kind: Kind, xs: &[Statement]) -> io::Result<()> {
    let offered = kind.offered();
    print_time(rt, "fits", 200, |_| {
        xs.first()
            .map_or(0, |first| u32::from(fits(naming, *first, &[], xs)))
    })?;
    print_time(
        rt,
        "cited",
        50,
        |_| u32::from(cited(naming, offered, xs).count),
    )?;
    let standing = stand(rt.alloc(), naming, xs)?;
    print_time(rt, "told", 256, |k| distance_told(&standing, k))
}

fn main(rt: HostRuntime) -> anyhow::Result<()> {
    let Ok(naming) = separate_names() else {
        return Err(anyhow!("no room for the names"));
    };
    let timed = env::args(&rt)?.any(|word| asks_for_times(word.as_str()));
    for kind in [Kind::Writes, Kind::Classes, Kind::Differences] {
        for count in [32, 128, 512] {
            let statements = list(rt.alloc(), kind, count)?;
            let xs = statements.as_slice();
            print_answers(&rt, &naming, kind, xs)?;
            if timed {
                print_times(&rt, &naming, kind, xs)?;
            }
        }
    }
    Ok(())
}
