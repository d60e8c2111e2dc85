// How many packets were taken out of shards, by their tales.
ghost use Rattle.std.specs.Prelude.{◌≡◌, map};
ghost use Rattle.mix_shard.specs.Shards.{IsKept};
ghost use Rattle.net_run.specs.Tallies.{takes_in};

use mix_base::Suite;
use mix_shard::{Entry, Shard};
use replay_disk::Rack;

/// How many packets were taken out of a shard since its tale began.
pub(crate) fn count_takes<R: Rack, S: Suite>(shard: &Shard<R, S>) -> u64
    ensures count { result ≡ takes_in (map (λ told. told.entry) shard.now.told) }
    ensures kept { IsKept R.tells S.meaning shard.now }
{
    count_in(shard.tale())
}

/// How many of these entries take a packet out.
fn count_in(tale: &[Entry]) -> u64
    ensures { result ≡ takes_in tale.now }
{
    let mut count = 0;
    'entries: for entry in tale {
        if let Entry::Take { .. } = entry {
            count += 1;
        }
    }
    count
}
