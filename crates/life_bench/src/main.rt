// A node in memory, to be measured: `work PACKETS WORKERS` lets it deliver packets from two links, and
// `idle SECONDS WORKERS` lets it wait for two links on which nothing comes. What it did is printed, and for how long on the
// standard error, since that differs from run to run.
#![tactic(auto)]

ghost use Rattle.std.specs.Prelude.{◌<◌};

mod nodes;
mod packets;
mod quiet;
mod words;

use anyhow::{Result, ensure};
use mix_shard::Entry;
use nodes::{live, node_with};
use packets::links;
use quiet::quiet_links;
use std::alloc::Global;
use std::env;
use std::sync::Wait;
use std::thread::Threads;
use std::time::{Clock, Instant};
use words::{Task, read_task};

/// What a node at work did: how many packets it delivered, how many its two listeners claimed themselves since a queue was
/// full, and in how many milliseconds.
#[derive(Drop)]
struct Worked {
    delivered: usize,
    by_listeners: u64,
    took: u128,
}

/// How many claims of this tale are those of the two listeners, which are the callers 0 and 2.
fn claims_of_listeners(tale: &[Entry]) -> u64 {
    let mut claims = 0u64;
    for entry in tale {
        if let Entry::Claim { caller, .. } = entry {
            if *caller < 4 {
                claims = claims.saturating_add(1);
            }
        }
    }
    claims
}

/// The node delivers so many packets.
fn work<R: Threads + Wait + Sync + Clock>(
    rt: &R,
    alloc: Global,
    packets: u32,
    workers: u32,
) -> Result<Worked>
    requires { 0 < workers }
{
    let node = node_with(alloc, workers, links(alloc, packets)?)?;
    let begun = Instant::now(rt)?;
    let end = live(rt, alloc, node, workers)?;
    let took = begun.elapsed(rt)?.as_millis();
    let mut by_listeners = 0u64;
    for shard in &end.shards {
        by_listeners = by_listeners.saturating_add(claims_of_listeners(shard.tale()));
    }
    Ok(Worked {
        delivered: end.local.len(),
        by_listeners,
        took,
    })
}

/// For how many milliseconds the node waited for links that are quiet for so many seconds.
fn idle<R: Threads + Wait + Sync + Clock>(
    rt: &R,
    alloc: Global,
    seconds: u32,
    workers: u32,
) -> Result<u128>
    requires { 0 < workers }
{
    let node = node_with(alloc, workers, quiet_links(rt, alloc, seconds)?)?;
    let begun = Instant::now(rt)?;
    live(rt, alloc, node, workers)?;
    Ok(begun.elapsed(rt)?.as_millis())
}

fn main(rt: HostRuntime) -> Result<()> {
    let (task, workers) = read_task(env::args(&rt)?)?;
    ensure!(workers > 0, "no worker");
    match task {
        Task::Work { packets } => {
            let worked = work(&rt, rt.alloc(), packets, workers)?;
            println!(rt; "{} delivered", worked.delivered)?;
            eprintln!(rt;
                "{} ms, {} claimed by listeners",
                worked.took, worked.by_listeners
            )?;
        }
        Task::Idle { seconds } => {
            let took = idle(&rt, rt.alloc(), seconds, workers)?;
            println!(rt; "idle")?;
            eprintln!(rt; "{took} ms")?;
        }
    }
    Ok(())
}
