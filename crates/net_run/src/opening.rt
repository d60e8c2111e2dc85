// The shards of a node are opened on its racks: all of them, or none.
ghost use Rattle.std.specs.Prelude.{◌≡◌, ◌+◌, ◌^◌, ◌<◌, ◌≤◌, length, map, vec_capacity, IfErr, IfOk, OnErr, OnOk};
ghost use Rattle.mix_base.specs.Shards.{IsShape};
ghost use Rattle.net_run.specs.Opening.{AreOpened, IsFresh, IsOpened, IsPlan, StopsNode, StopsOpening, fault_status};
ghost use Rattle.net_run.specs.Sites.{IsEmptyFor};
ghost use Rattle.net_run.specs.Racks.{AreLater, IsLater};

use crate::closing::push_shards;
use lab_text::Status;
use mix_base::{Memory, Shape, Suite};
use mix_shard::{Setup, Shard};
use replay_disk::Rack;
use spent_store::OpenStore;
use std::alloc::Global;

/// The most records of a log of a journal.
const LOG_LIMIT: u64 = 1 << 26;

/// What a node of the network is opened as: its number, what its packets are unwrapped under, and how many shards and
/// callers it has.
#[derive(Clone, Copy)]
pub(crate) struct NodePlan {
    pub(crate) number: u32,
    pub(crate) setup: Setup,
    pub(crate) shards: u8,
    pub(crate) callers: u32,
}

/// Opens the shards of a node on its racks, in their order. Where one isn't opened, all racks are back in their places.
pub(crate) fn open_shards<R: Rack, S: Suite>(
    alloc: Global,
    plan: &NodePlan,
    racks: &mut Vec<R>,
) -> Result<Vec<Shard<R, S>>, Status>
    requires plan { IsPlan plan.now }
    requires count { length racks.old.items ≡ plan.now.shards }
    ensures opened { IfOk result (λ shards. AreOpened R.tells S.meaning plan.now 0
        (map R.state racks.old.items) shards.items) }
    ensures emptied { OnOk result (IsEmptyFor plan.now.shards racks.new) }
    ensures back { OnErr result (AreLater
        (map R.state racks.old.items) (map R.state racks.new.items)) }
    ensures cause { IfErr result (StopsNode R.tells plan.now
        (map R.state racks.old.items) (map R.state racks.new.items)) }
    ensures capacity { vec_capacity racks.new ≡ vec_capacity racks.old }
{
    let Ok(mut shards) = Vec::with_capacity(alloc, plan.shards as usize) else {
        return Err(Status::Memory);
    };
    racks.reverse();
    'shards: for index in 0..plan.shards {
        let Some(rack) = racks.pop() else {
            unreachable!()
        };
        match open_shard(alloc, plan, index, rack) {
            Ok(shard) => shards.push_reserved(shard),
            Err((rack, status)) => {
                racks.push_reserved(rack);
                push_shards(racks, shards);
                racks.reverse();
                return Err(status);
            }
        }
    }
    Ok(shards)
}

/// The shard of a rack, with its journal made ready; or the rack, and how the run ends for it.
fn open_shard<R: Rack, S: Suite>(
    alloc: Global,
    plan: &NodePlan,
    index: u8,
    rack: R,
) -> Result<Shard<R, S>, (R, Status)>
    requires plan { IsPlan plan.now }
    requires index { index < plan.now.shards }
    ensures opened { IfOk result (IsOpened R.tells S.meaning plan.now index (R.state rack)) }
    ensures back { IfErr result (λ back. IsLater (R.state rack) (R.state back.0)) }
    ensures cause { IfErr result (λ back.
        StopsOpening R.tells plan.now index (R.state rack) (R.state back.0) back.1) }
{
    let Setup {
        geometry,
        times,
        seed,
    } = plan.setup;
    let shape = Shape {
        shards: plan.shards,
        index,
    };
    match Shard::new(
        alloc,
        rack,
        shape,
        geometry,
        times,
        &seed,
        LOG_LIMIT,
        plan.callers,
    ) {
        Ok(shard) => ready_shard(alloc, plan, &shape, shard),
        Err((rack, Memory)) => Err((rack, Status::Memory)),
    }
}

/// A shard that was just made, with its journal made ready; or its rack, and how the run ends for it.
fn ready_shard<R: Rack, S: Suite>(
    alloc: Global,
    plan: &NodePlan,
    shape: &Shape,
    mut shard: Shard<R, S>,
) -> Result<Shard<R, S>, (R, Status)>
    requires fresh { IsFresh plan.now shape.now shard }
    ensures opened { IfOk result (IsOpened R.tells S.meaning plan.now shape.now.index shard.rack) }
    ensures back { IfErr result (λ back. IsLater shard.rack (R.state back.0)) }
    ensures cause { IfErr result (λ back.
        StopsOpening R.tells plan.now shape.now.index shard.rack (R.state back.0) back.1) }
{
    match shard.ready(alloc, 0) {
        Ok(_) => Ok(shard),
        Err(fault) => {
            let (rack, _) = shard.into_parts();
            Err((rack, fault_to_status(plan.number, shape, fault)))
        }
    }
}

/// How the run ends for a journal that isn't made ready.
pub(crate) fn fault_to_status(number: u32, shape: &Shape, fault: OpenStore) -> Status
    ensures { result ≡ fault_status number shape.now fault }
{
    match fault {
        OpenStore::Failed => Status::Disk {
            node: number,
            shard: shape.index,
        },
        OpenStore::Foreign { area, at } => Status::Foreign {
            node: number,
            shard: shape.index,
            area,
            at,
        },
        OpenStore::OtherShape { stored } => Status::OtherShape {
            node: number,
            shard: shape.index,
            stored,
            asked: *shape,
        },
        OpenStore::Memory => Status::Memory,
    }
}
