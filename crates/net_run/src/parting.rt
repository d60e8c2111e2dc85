// What a life left is parted: the shards of each node, and the packets for its recipients.
ghost use Rattle.std.specs.Prelude.{◌≡◌, IfOk, length, map};
ghost use Rattle.std.specs.List.{list_any};
ghost use Rattle.net_run.specs.Parting.{has_dropped, local_in, shards_left, shards_of_seat, takes_left, takes_of};
ghost use Rattle.net_run.specs.Sites.{IsEmptyFor};

use crate::tallies::count_takes;
use mix_base::Suite;
use mix_links::{LinkIn, LinkOut};
use mix_shard::{Held, Shard};
use node_run::{NodeEnd, NodeSeat};
use replay_disk::Rack;
use std::alloc::{AllocError, Global};

/// The shards of each node, and the packets for its recipients.
#[derive(Drop)]
pub(crate) struct Parted<R: Rack, S: Suite> {
    pub(crate) shards: Vec<Vec<Shard<R, S>>>,
    pub(crate) locals: Vec<Vec<Held<S>>>,
}

/// Parts the nodes of a life that has ended. Asks room for them in both lists. Takes no memory.
pub(crate) fn part_ends<R: Rack, S: Suite, N: LinkIn, O: LinkOut>(
    ends: Vec<NodeEnd<R, S, N, O>>,
    mut shards: Vec<Vec<Shard<R, S>>>,
    mut locals: Vec<Vec<Held<S>>>,
) -> Parted<R, S>
    requires shards { IsEmptyFor (length ends.items) shards }
    requires locals { IsEmptyFor (length ends.items) locals }
    ensures shards { result.shards.items ≡ map shards_left ends.items }
    ensures locals { result.locals.items ≡ map local_in ends.items }
{
    'ends: for end in ends {
        let NodeEnd {
            shards: left,
            local,
            incoming: _,
            outgoing: _,
            unsent: _,
            dropped: _,
            left: _,
        } = end;
        shards.push_reserved(left);
        locals.push_reserved(local);
    }
    Parted { shards, locals }
}

/// The shards of nodes that didn't live. Asks room for them. Takes no memory.
pub(crate) fn part_seats<R: Rack, S: Suite, N: LinkIn, O: LinkOut>(
    seats: Vec<NodeSeat<R, S, N, O>>,
    mut shards: Vec<Vec<Shard<R, S>>>,
) -> Vec<Vec<Shard<R, S>>>
    requires { IsEmptyFor (length seats.items) shards }
    ensures { result.items ≡ map shards_of_seat seats.items }
{
    'seats: for seat in seats {
        let NodeSeat {
            geo: _,
            times: _,
            shards: back,
            seed: _,
            incoming: _,
            outgoing: _,
        } = seat;
        shards.push_reserved(back);
    }
    shards
}

/// Whether a packet met want of memory at one of these nodes.
pub(crate) fn any_dropped<R: Rack, S: Suite, N: LinkIn, O: LinkOut>(
    ends: &[NodeEnd<R, S, N, O>],
) -> bool
    ensures { result ≡ list_any has_dropped ends.now }
{
    'ends: for end in ends {
        if end.dropped > 0 {
            return true;
        }
    }
    false
}

/// How many packets were taken out of each shard of these nodes.
pub(crate) fn tally_ends<R: Rack, S: Suite, N: LinkIn, O: LinkOut>(
    alloc: Global,
    ends: &[NodeEnd<R, S, N, O>],
) -> Result<Vec<Vec<u64>>, AllocError>
    ensures { IfOk result (λ takes.
        map (λ list. list.items) takes.items ≡ map takes_left ends.now) }
{
    let mut takes = Vec::new(alloc);
    'ends: for end in ends {
        takes.push(tally_shards(alloc, &end.shards)?)?;
    }
    Ok(takes)
}

/// How many packets were taken out of each of these shards.
fn tally_shards<R: Rack, S: Suite>(
    alloc: Global,
    shards: &[Shard<R, S>],
) -> Result<Vec<u64>, AllocError>
    ensures { IfOk result (λ takes. takes.items ≡ map takes_of shards.now) }
{
    let mut takes = Vec::new(alloc);
    'shards: for shard in shards {
        takes.push(count_takes(shard))?;
    }
    Ok(takes)
}
