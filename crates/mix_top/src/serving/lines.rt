// What an answer of the node comes to: a line of the report, none, or a status that ends the run.
ghost use Rattle.std.specs.Prelude.{◌≡◌, ◌≢◌, Some, IfOk, IfErr, IsErr};
ghost use Rattle.mix_shard.specs.Faults.{IsObjection, OfOpening, OfReopening};
ghost use Rattle.mix_top.specs.Progress.{IsToObject, as_lines};
ghost use Rattle.mix_top.specs.Steps.{ends_claim, ends_denied, ends_opening, ends_peeling, ends_rotation};
ghost use Rattle.mix_top.specs.Steps.{says_claimed, says_denied, says_opened, says_peeled, says_reopened, says_rotated};

use crate::report::ReportLine;
use lab_text::Status;
use mix_base::Shape;
use mix_shard::{Denied, RotateFault};
use node_core::{Claimed, NodePeel, NodeSetup, Peeled};
use spent_store::{Book, OpenStore};

/// The line of an opening at the node line.
pub fn opened_line(
    setup: &NodeSetup,
    shard: u8,
    opened: Result<Book, OpenStore>,
) -> Result<Option<ReportLine>, Status>
    ensures said { IfOk result (λ line. says_opened shard opened ≡ Some (as_lines line)) }
    ensures ends { IfErr result (λ status.
        IfErr opened (λ fault. ends_opening setup.now shard fault ≡ Some status)) }
    ensures fails { IfErr result (λ status. IsErr opened) }
{
    match opened {
        Ok(_) => Ok(None),
        Err(OpenStore::Failed) => Ok(Some(ReportLine::Unopened { shard })),
        Err(fault) => Err(opening_status(setup, shard, fault)),
    }
}

/// The line of an opening after a crash.
pub fn reopened_line(
    setup: &NodeSetup,
    shard: u8,
    opened: Result<Book, OpenStore>,
) -> Result<Option<ReportLine>, Status>
    ensures said { IfOk result (λ line. says_reopened shard opened ≡ Some (as_lines line)) }
    ensures ends { IfErr result (λ status.
        IfErr opened (λ fault. ends_opening setup.now shard fault ≡ Some status)) }
    ensures fails { IfErr result (λ status. IsErr opened) }
{
    match opened {
        Ok(book) => Ok(Some(ReportLine::Restarted {
            shard,
            floor: book.floor,
            spent: book.spent,
        })),
        Err(OpenStore::Failed) => Ok(Some(ReportLine::Unopened { shard })),
        Err(fault) => Err(opening_status(setup, shard, fault)),
    }
}

/// How an opening that objects, or that wants memory, ends the run.
fn opening_status(setup: &NodeSetup, shard: u8, fault: OpenStore) -> Status
    requires { fault ≢ OpenStore.Failed }
    ensures { ends_opening setup.now shard fault ≡ Some result }
{
    match fault {
        OpenStore::Foreign { area, at } => Status::Foreign {
            node: 0,
            shard,
            area,
            at,
        },
        OpenStore::OtherShape { stored } => Status::OtherShape {
            node: 0,
            shard,
            stored,
            asked: Shape {
                shards: setup.shards,
                index: shard,
            },
        },
        OpenStore::Memory => Status::Memory,
        OpenStore::Failed => unreachable!(),
    }
}

/// The line of an unwrapping.
pub fn peel_line(worker: u8, answer: Peeled) -> Option<ReportLine>
    ensures { as_lines result ≡ says_peeled worker answer }
{
    match answer {
        Peeled::Holding { number: _ } => None,
        Peeled::Refused { number, why } => Some(ReportLine::Refuse { number, why }),
        Peeled::Idle => Some(ReportLine::Idle { worker }),
        Peeled::Busy => Some(ReportLine::Busy { worker }),
    }
}

/// How an unwrapping that wants a key, or memory, ends the run.
pub fn peel_status(fault: NodePeel) -> Status
    ensures { result ≡ ends_peeling fault }
{
    match fault {
        NodePeel::NoKey { epoch } => Status::NoKey { epoch },
        NodePeel::Memory => Status::Memory,
    }
}

/// The line of a claim.
pub fn claim_line(
    setup: &NodeSetup,
    worker: u8,
    answer: Claimed,
) -> Result<Option<ReportLine>, Status>
    requires { IsToObject answer }
    ensures said { IfOk result (λ line. says_claimed worker answer ≡ Some (as_lines line)) }
    ensures ends { IfErr result (λ status. ends_claim setup.now answer ≡ Some status) }
{
    match answer {
        Claimed::Accepted { number: _ } => Ok(None),
        Claimed::Empty => Ok(Some(ReportLine::Empty { worker })),
        Claimed::Denied { number, shard, why } => denied_line(setup, number, shard, why),
    }
}

/// The line of a claim that is denied.
fn denied_line(
    setup: &NodeSetup,
    number: u64,
    shard: u8,
    why: Denied,
) -> Result<Option<ReportLine>, Status>
    requires { OfOpening why IsObjection }
    ensures said { IfOk result (λ line. says_denied number shard why ≡ Some (as_lines line)) }
    ensures ends { IfErr result (λ status. ends_denied setup.now shard why ≡ Some status) }
{
    match why {
        Denied::Retired { floor } => Ok(Some(ReportLine::Retired { number, floor })),
        Denied::Spent => Ok(Some(ReportLine::Spent { number })),
        Denied::ShardFull => Ok(Some(ReportLine::Full { number })),
        Denied::Disk => Ok(Some(ReportLine::Failed { number, shard })),
        Denied::Journal(fault) => Err(opening_status(setup, shard, fault)),
        Denied::Memory => Err(Status::Memory),
    }
}

/// The line of a shard's rotation.
pub fn rotation_line(
    setup: &NodeSetup,
    shard: u8,
    rotated: Result<(), RotateFault>,
) -> Result<Option<ReportLine>, Status>
    requires { IfErr rotated (λ why. OfReopening why IsObjection) }
    ensures said { IfOk result (λ line. says_rotated shard rotated ≡ Some (as_lines line)) }
    ensures ends { IfErr result (λ status.
        IfErr rotated (λ fault. ends_rotation setup.now shard fault ≡ Some status)) }
    ensures fails { IfErr result (λ status. IsErr rotated) }
{
    match rotated {
        Ok(()) => Ok(None),
        Err(RotateFault::RootFull) => Ok(Some(ReportLine::RootFull { shard })),
        Err(RotateFault::Disk) => Ok(Some(ReportLine::NotRotated { shard })),
        Err(RotateFault::Journal(fault)) => Err(opening_status(setup, shard, fault)),
        Err(RotateFault::Memory) => Err(Status::Memory),
    }
}
