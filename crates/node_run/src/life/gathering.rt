// What the callers of a node left, taken apart: each pass goes to its lock's list, and each work to the list of its kind.
ghost use Rattle.std.specs.Prelude.{◌≡◌, ◌<◌, All, length, vec_capacity, vec_len};
ghost use Rattle.node_run.specs.Accounts.{hands_of};
ghost use Rattle.node_run.specs.Closings.{AreColumns, ArePut};
ghost use Rattle.node_run.specs.Accounts as Accounts;
ghost use Rattle.node_run.specs.Gatherings.{AreSorted, FitsInto, PutsLists, PutsWork, all_of, link_in, link_out_in, receiver_in};
ghost use Rattle.node_run.specs.Rooms.{AreEmpty, HasRoomFor};

use crate::life::rooms::Works;
use mix_links::{LinkIn, LinkOut};
use node_actors::{Left, Work};

// Each pass of a caller goes to its lock's list.
pub(crate) fn put_passes<Q: Drop>(lists: &mut Vec<Vec<Q>>, mut passes: Vec<Q>)
    requires many { length passes.items ≡ length lists.old.items }
    requires room { All (λ list. vec_len list < vec_capacity list) lists.old.items }
    ensures { ArePut passes.items lists.old.items lists.new.items }
{
    while let Some(pass) = passes.pop() {
        let at = passes.len();
        lists[at].push_reserved(pass);
    }
}

// How many packets a caller took and didn't hand on.
fn unsent_of<P: Drop, N: LinkIn, O: LinkOut>(work: &Work<P, N, O>) -> u64
    ensures { result ≡ Accounts.unsent_of work.now }
{
    match work {
        Work::Connected { unsent, .. } | Work::Kept { unsent, .. } => *unsent,
        _ => 0,
    }
}

// How many packets a caller dropped.
fn dropped_of<P: Drop, N: LinkIn, O: LinkOut>(work: &Work<P, N, O>) -> u64
    ensures { result ≡ Accounts.dropped_of work.now }
{
    match work {
        Work::Listened { dropped, .. } | Work::Worked { dropped, .. } => *dropped,
        _ => 0,
    }
}

// What a caller left besides its passes and counts goes to the lists of its kind.
fn put_lists<P: Drop, N: LinkIn, O: LinkOut>(works: &mut Works<P, N, O>, work: Work<P, N, O>)
    requires { FitsInto work works.old }
    ensures { PutsLists work works.old works.new }
{
    match work {
        Work::Listened {
            link,
            log: _,
            dropped: _,
            senders,
            course: _,
            ending: _,
        } => {
            works.incoming.push_reserved(link);
            works.senders.push_reserved(senders);
        }
        Work::Worked {
            receiver,
            log: _,
            dropped: _,
        } => {
            works.receivers.push_reserved(receiver);
        }
        Work::Connected {
            hop,
            link,
            log: _,
            unsent: _,
        } => {
            works.outgoing.push_reserved((hop, link));
        }
        Work::Kept {
            local,
            log: _,
            unsent: _,
        } => {
            works.local = local;
        }
        Work::Rotated | Work::Ended => {}
        // No caller of a node leaves a feed's link.
        Work::Fed { link: _ } => {}
    }
}

// What a caller left besides its passes goes to the lists of its kind, and its counts are added.
fn put_work<P: Drop, N: LinkIn, O: LinkOut>(works: &mut Works<P, N, O>, work: Work<P, N, O>)
    requires { FitsInto work works.old }
    ensures { PutsWork work works.old works.new }
{
    works.unsent = works.unsent.saturating_add(unsent_of(&work));
    works.dropped = works.dropped.saturating_add(dropped_of(&work));
    put_lists(works, work);
}

/// For each lock the passes to it, in the callers' order, and what the callers left besides, by its kind.
pub(crate) fn gather<Q: Drop, P: Drop, N: LinkIn, O: LinkOut>(
    mut lists: Vec<Vec<Q>>,
    mut works: Works<P, N, O>,
    lefts: Vec<Left<Q, P, N, O>>,
) -> (Vec<Vec<Q>>, Works<P, N, O>)
    requires hands { All (λ gave. length gave.passes.items ≡ length lists.items) lefts.items }
    requires lists { AreEmpty (length lists.items) (length lefts.items) lists }
    requires room { HasRoomFor (length (all_of link_in lefts.items))
        (length (all_of receiver_in lefts.items)) (length (all_of link_out_in lefts.items))
        works }
    ensures many { length result.0.items ≡ length lists.items }
    ensures columns { AreColumns (hands_of lefts.items) result.0.items }
    ensures sorted { AreSorted lefts.items result.1 }
{
    for left in lefts {
        let Left { passes, work } = left;
        put_passes(&mut lists, passes);
        put_work(&mut works, work);
    }
    (lists, works)
}
