//! Prints what a log on standard input holds, a line for each record, and what its pairings amount to.

#![tactic(auto)]

use listing::input::read_log;
use listing::list::{Room, list};

fn main(rt: HostRuntime) -> anyhow::Result<()> {
    let log = read_log(rt.alloc(), rt.stdin())?;
    let room = Room::new(rt.alloc())?;
    for line in list(room, log.as_slice()) {
        println!(rt; "{line}")?;
    }
    Ok(())
}
