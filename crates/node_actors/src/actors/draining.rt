// What a shard's tale says of its callers, where nobody has ended yet, and where all have.
ghost use Rattle.std.specs.Prelude.{◌≡◌, ◌<◌, ℕ, [], false, Some, slice_get};
ghost use Rattle.mix_shard.specs.Shards.{IsDrained};
ghost use Rattle.turn_lock.specs.Stories.{Begins, after};
ghost use Rattle.node_actors.specs.Calls.{AreByClaimers, HoldsNothing, IsSpent, has_ended};

use crate::actors::turns::ShardPass;
use mix_base::Suite;
use mix_shard::Shard;
use replay_disk::Rack;

/// Does nothing. Of a shard of which no caller is done and that holds nothing, the tale says both.
pub fn nobody_ended<R: Rack, S: Suite>(shard: &Shard<R, S>)
    requires done { (caller : ℕ) → caller < shard.now.terms.callers →
        slice_get shard.now.state.done caller ≡ Some false }
    requires empty { shard.now.state.held ≡ [] }
    ensures open { (caller : ℕ) → caller < shard.now.terms.callers →
        has_ended caller shard.now.told ≡ false }
    ensures nothing_held { HoldsNothing shard.now.told }
{
    let _tale = shard.tale();
}

/// Does nothing. A shard that was drained when a caller last had it is drained now: who may claim had ended. Asks that
/// since then only callers of even numbers claimed.
pub fn stays_drained<R: Rack, S: Suite>(shard: &Shard<R, S>, pass: &ShardPass<R, S>)
    requires begins { Begins pass.now.seen shard.now.told }
    requires spent { IsSpent shard.now.terms.callers pass.now.seen }
    requires claimers { AreByClaimers (after pass.now.seen shard.now.told) }
    ensures { IsDrained shard.now }
{
    let _tale = shard.tale();
}
