// Looks at kept disks: at a journal that a store wrote beside empty disks, as another number of shards, and at a disk that
// fails.
ghost use Rattle.mix_base.specs.Shards.{IsShape};

use super::calls::answered;
use crate::Bench;
use lab_text::Status;
use mix_base::{Memory, Shape};
use replay_disk::{CrashRack, Rack};
use spent_store::SpentStore;
use std::alloc::Global;
use std::test::Fail;

/// Makes the journal of this shape on a disk, and spends a tag of epoch 7 there.
fn spend<R: Rack>(alloc: Global, disk: &mut R, shape: &Shape) -> Result<bool, Memory>
    requires { IsShape shape.now }
{
    match SpentStore::open(alloc, disk, shape, 100) {
        Ok(store) => {
            let mut store = store;
            store.reserve(alloc)?;
            disk.room(57)?;
            Ok(store.claim(disk, 7, &[9; 32], 7).is_ok())
        }
        Err(_) => Ok(false),
    }
}

#[test]
fn a_journal_beside_empty_disks(rt: HostRuntime) -> Result<(), Fail> {
    let alloc = rt.alloc();
    let mut bench = Bench::in_memory(alloc)?;
    let first = Shape {
        shards: 4,
        index: 0,
    };
    assert!(rt; spend(alloc, &mut bench.kept[0], &first)?);
    let (status, text) = answered(alloc, &mut bench, "look 4")?;
    assert!(rt; status == Status::Done);
    let lines = "shard 0 floor 7 spent 1 root 3\n\
        shard 1 floor 0 spent 0 root 0\n\
        shard 2 floor 0 spent 0 root 0\n\
        shard 3 floor 0 spent 0 root 0\n";
    assert!(rt; text.as_slice() == lines.as_bytes());
    let (status, text) = answered(alloc, &mut bench, "look 8")?;
    let asked = Shape {
        shards: 8,
        index: 0,
    };
    let other = Status::OtherShape {
        node: 0,
        shard: 0,
        stored: first,
        asked,
    };
    assert!(rt; status == other);
    assert!(rt; text.is_empty());
    Ok(())
}

#[test]
fn a_disk_that_fails(rt: HostRuntime) -> Result<(), Fail> {
    let alloc = rt.alloc();
    let mut bench = Bench::in_memory(alloc)?;
    bench.kept[1].arm(1);
    let (status, text) = answered(alloc, &mut bench, "look 2")?;
    assert!(rt; status == Status::Disk { node: 0, shard: 1 });
    assert!(rt; text.is_empty());
    let (status, _) = answered(alloc, &mut bench, "look 1")?;
    assert!(rt; status == Status::Done);
    Ok(())
}
