// The racks of shards come back into the sites that wait for them.
ghost use Rattle.std.specs.Prelude.{◌≡◌, ◌+◌, ◌≤◌, All, length, map, reverse, vec_len, vec_capacity};
ghost use Rattle.std.specs.List.{AllZip};
ghost use Rattle.mix_shard.specs.Shards.{IsKept};
ghost use Rattle.net_run.specs.Refilling.{AreAllKept, ArePutBack, HasRoomFor};
ghost use Rattle.net_run.specs.Sites.{IsEmptyFor};

use crate::closing::push_shards;
use crate::sites::Site;
use mix_base::Suite;
use mix_shard::Shard;
use replay_disk::Rack;

/// The site with the racks of these shards. Takes no memory.
pub(crate) fn refill_site<R: Rack, S: Suite>(mut site: Site<R>, shards: Vec<Shard<R, S>>) -> Site<R>
    requires { IsEmptyFor (length shards.items) site.used }
    ensures used { map R.state result.used.items ≡ map (λ shard. shard.rack) shards.items }
    ensures idle { result.idle ≡ site.idle }
    ensures kept { All (IsKept R.tells S.meaning) shards.items }
{
    push_shards(&mut site.used, shards);
    site.used.reverse();
    site
}

/// Puts the racks of each node's shards into its site, and the sites behind the others, the last first. Takes no memory.
pub(crate) fn refill_sites<R: Rack, S: Suite>(
    sites: &mut Vec<Site<R>>,
    mut waiting: Vec<Site<R>>,
    mut shards: Vec<Vec<Shard<R, S>>>,
)
    requires fit { AllZip HasRoomFor (reverse waiting.items) (reverse shards.items) }
    requires room { vec_len sites.old + vec_len waiting ≤ vec_capacity sites.old }
    ensures put { ArePutBack R.state waiting.items shards.items
        (reverse sites.old.items) (reverse sites.new.items) }
    ensures kept { All (AreAllKept R.tells S.meaning) shards.items }
    ensures capacity { vec_capacity sites.new ≡ vec_capacity sites.old }
{
    'sites: while let Some(site) = waiting.pop() {
        let Some(list) = shards.pop() else {
            unreachable!()
        };
        sites.push_reserved(refill_site(site, list));
    }
}
