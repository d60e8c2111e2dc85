// The racks of shards come back.
ghost use Rattle.std.specs.Prelude.{◌≡◌, ◌+◌, ◌++◌, ◌≤◌, All, map, reverse, vec_len, vec_capacity};
ghost use Rattle.mix_shard.specs.Shards.{IsKept};

use mix_base::Suite;
use mix_shard::Shard;
use replay_disk::Rack;

/// Puts the racks of shards behind the end of a list, the last of them first. What the shards hold is lost. Takes no memory.
pub(crate) fn push_shards<R: Rack, S: Suite>(racks: &mut Vec<R>, mut shards: Vec<Shard<R, S>>)
    requires room { vec_len racks.old + vec_len shards ≤ vec_capacity racks.old }
    ensures put { map R.state (reverse racks.new.items)
        ≡ map (λ shard. shard.rack) shards.items ++ map R.state (reverse racks.old.items) }
    ensures kept { All (IsKept R.tells S.meaning) shards.items }
    ensures len { vec_len racks.new ≡ vec_len racks.old + vec_len shards }
    ensures capacity { vec_capacity racks.new ≡ vec_capacity racks.old }
{
    while let Some(shard) = shards.pop() {
        let _tale = shard.tale();
        let (rack, _) = shard.into_parts();
        racks.push_reserved(rack);
    }
}
