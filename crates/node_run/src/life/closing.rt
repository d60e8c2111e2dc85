// The locks of a node are closed: the shards come back.
ghost use Rattle.std.specs.Prelude.{◌≡◌, ◌≤◌, [], length, vec_capacity, vec_len};
ghost use Rattle.mix_shard.specs.Laws.{KeepsAccepted, NoneTwice, accepted};
ghost use Rattle.node_run.specs.Closings.{AreAllPasses, ArePasses, AreShut, IsShut};

use mix_base::Suite;
use mix_shard::Shard;
use node_actors::{ShardLock, ShardPass};
use replay_disk::Rack;

// The shard behind a lock.
fn close_one<R: Rack, S: Suite>(lock: ShardLock<R, S>, passes: Vec<ShardPass<R, S>>) -> Shard<R, S>
    requires { ArePasses lock passes.items }
    ensures { IsShut R.tells S.meaning lock passes.items result }
{
    let shard = lock.close(passes);
    let _tale = shard.tale();
    shard
}

/// The shards behind these locks, in their order. `shards` has room for all.
pub(crate) fn close_all<R: Rack, S: Suite>(
    mut locks: Vec<ShardLock<R, S>>,
    mut lists: Vec<Vec<ShardPass<R, S>>>,
    mut shards: Vec<Shard<R, S>>,
) -> Vec<Shard<R, S>>
    requires passes { AreAllPasses locks.items lists.items }
    requires none { shards.items ≡ [] }
    requires room { vec_len locks ≤ vec_capacity shards }
    ensures { AreShut R.tells S.meaning locks.items lists.items result.items }
{
    while let Some(lock) = locks.pop() {
        let Some(passes) = lists.pop() else {
            unreachable!()
        };
        shards.push_reserved(close_one(lock, passes));
    }
    shards.reverse();
    shards
}
