// A spawner that refuses its first call.
ghost use Rattle.std.specs.Prelude.{◌≡◌, ◌<◌, IfOk};
ghost use Rattle.node_run.specs.Openings.{IsUnused};
ghost use Rattle.node_run.specs.Seats.{CanLive};

use super::packets::{link, to_recipient};
use super::seats::{Seat, callers, seat, setup, shard};
use crate::{LifeFault, NodeSeat, node_life};
use mix_base::Shape;
use mix_links::{ListIn, ListOut, StepClock};
use mix_shard::{Entry, Shard};
use node_actors::{OpenGate, ThreadSpawner};
use prim_std::LabSuite;
use replay_disk::MemRack;
use std::alloc::Global;
use std::test::Fail;

const ONE: Shape = Shape {
    shards: 1,
    index: 0,
};

/// How its tale begins where the journal of an empty rack is opened.
const OPENED: Entry = Entry::Reopened {
    caller: 0,
    floor: 0,
    spent: 0,
};

/// Opens the journal of a shard that nobody used, which its tale then tells.
fn open(alloc: Global, shard: &mut Shard<MemRack, LabSuite>, callers: u32) -> Result<(), Fail>
    requires unused { IsUnused callers shard.old }
    requires some { 0 < callers }
    ensures unused { IfOk result (λ _. IsUnused callers shard.new) }
    ensures terms { IfOk result (λ _. shard.new.terms ≡ shard.old.terms) }
{
    match shard.ready(alloc, 0) {
        Ok(_) => Ok(()),
        Err(_) => Err(Fail::from("not opened")),
    }
}

/// A node for two workers with one shard, whose journal is open, and one link in with a packet.
fn opened_seat(alloc: Global) -> Result<Seat<ListIn, ListOut>, Fail>
    ensures { IfOk result (CanLive 48 2) }
{
    let packets = vec![in alloc; to_recipient(alloc, 1)?]?;
    let incoming = vec![in alloc; link(alloc, &packets)?]?;
    let callers = callers(incoming.len(), 2, 0)?;
    let setup = setup(0)?;
    let mut shard = shard(alloc, &setup, MemRack::new(alloc), ONE, callers)?;
    open(alloc, &mut shard, callers)?;
    Ok(NodeSeat {
        geo: setup.geometry,
        times: setup.times,
        shards: vec![in alloc; shard]?,
        seed: setup.seed,
        incoming,
        outgoing: Vec::new(alloc),
    })
}

/// Whether there are so many shards, and each has this tale.
fn have_told(shards: &[Shard<MemRack, LabSuite>], many: usize, tale: &[Entry]) -> bool {
    for shard in shards {
        if shard.tale() != tale {
            return false;
        }
    }
    shards.len() == many
}

#[test]
fn no_thread_and_the_seats_back(rt: HostRuntime) -> Result<(), Fail> {
    let alloc = rt.alloc();
    let nodes = vec![in alloc;
        opened_seat(alloc)?,
        seat(alloc, 1, 3, 2, Vec::new(alloc), Vec::new(alloc))?,
    ]?;
    let clock = StepClock::new(1000);
    let mut spawner = ThreadSpawner::new(&rt, vec![in alloc; 1]?);
    let feeds = Vec::new(alloc);
    let Err(LifeFault::NoThread(back)) = node_life(
        &rt,
        alloc,
        nodes,
        feeds,
        2,
        &clock,
        &OpenGate,
        &mut spawner,
    ) else {
        return Err(Fail::from("not refused"));
    };
    assert_eq!(rt; back.len(), 2);
    for (seat, (many, tale)) in back
        .iter()
        .zip([(1, [OPENED].as_slice()), (3, [].as_slice())])
    {
        assert!(rt; have_told(&seat.shards, many, tale), "{many}");
    }
    Ok(())
}
