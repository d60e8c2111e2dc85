// What each caller of a node gets besides its passes.
ghost use Rattle.std.specs.Prelude.{◌≡◌, ◌+◌, ◌-◌, ◌*◌, ◌^◌, ◌<◌, ◌≤◌, length, map, IfOk, OnOk};
ghost use Rattle.node_run.specs.Posts.{AddsEach, AreEach, AreEven, AreOdd, ArePosts, AreReceivers, HasReceiver, IsConnector, IsListener, IsSpare, IsWoven, plan_for};

use crate::life::queues::senders_to;
use mix_base::Memory;
use mix_links::{LinkIn, LinkOut};
use node_actors::{PacketQueue, Receiver, Sender};
use std::alloc::Global;

/// What a caller of a node gets besides its passes, by its role. Places are counted from 0.
#[derive(Drop)]
pub(crate) enum Post<N: LinkIn, O: LinkOut> {
    /// Its place among so many listeners, its link, its senders to the workers, and a buffer of a packet's length.
    Listener {
        place: u32,
        listeners: u32,
        link: N,
        senders: Vec<Sender>,
        buffer: Vec<u8>,
    },
    /// Its place, and the receiver of its queue.
    Worker {
        place: u32,
        receiver: Receiver,
    },
    /// The local connector: the hops that the node's links lead to.
    Keeper {
        hops: Vec<[u8; 32]>,
    },
    /// The link to a hop.
    Connector {
        hop: [u8; 32],
        link: O,
    },
    /// For each shard, the greatest epoch that was tried there.
    Rotator {
        tried: Vec<u64>,
    },
    /// It only ends.
    Spare,
}

/// A post for each caller, in their order: of the even and the odd numbers in turn. Asks as many pairs as `pairs` says.
pub(crate) fn posts_of<N: LinkIn, O: LinkOut>(
    alloc: Global,
    queues: &[PacketQueue],
    receivers: Vec<Receiver>,
    incoming: Vec<N>,
    outgoing: Vec<([u8; 32], O)>,
    size: usize,
    shards: usize,
    pairs: usize,
) -> Result<Vec<Post<N, O>>, Memory>
    requires receivers { AreReceivers 0 queues.now receivers.items }
    requires listeners { length incoming.items < 2 ^ 32 }
    requires workers { length queues.now < 2 ^ 32 }
    requires even { length incoming.items + length queues.now ≤ pairs }
    requires odd { length outgoing.items + 2 ≤ pairs }
    requires fit { pairs < 2 ^ 32 }
    ensures { IfOk result (λ posts.
        ArePosts (plan_for queues.now shards size incoming.items outgoing.items)
        (2 * pairs) posts.items) }
{
    let evens = even_posts(alloc, queues, receivers, incoming, size, pairs)?;
    let odds = odd_posts(alloc, outgoing, shards, pairs)?;
    weave(alloc, evens, odds)
}

/// The posts of the callers of even numbers.
fn even_posts<N: LinkIn, O: LinkOut>(
    alloc: Global,
    queues: &[PacketQueue],
    mut receivers: Vec<Receiver>,
    incoming: Vec<N>,
    size: usize,
    pairs: usize,
) -> Result<Vec<Post<N, O>>, Memory>
    requires receivers { AreReceivers 0 queues.now receivers.items }
    requires listeners { length incoming.items < 2 ^ 32 }
    requires workers { length queues.now < 2 ^ 32 }
    requires even { length incoming.items + length queues.now ≤ pairs }
    ensures many { IfOk result (λ posts. length posts.items ≡ pairs) }
    ensures posts { IfOk result (λ posts.
        AreEven queues.now size incoming.items posts.items) }
{
    let mut posts = listener_posts(alloc, queues, &mut receivers, incoming, size)?;
    add_workers(&mut posts, receivers)?;
    add_spares(&mut posts, pairs)?;
    Ok(posts)
}

/// The listeners' posts. Each receiver makes a sender for each of them.
fn listener_posts<N: LinkIn, O: LinkOut>(
    alloc: Global,
    queues: &[PacketQueue],
    receivers: &mut Vec<Receiver>,
    incoming: Vec<N>,
    size: usize,
) -> Result<Vec<Post<N, O>>, Memory>
    requires receivers { AreReceivers 0 queues.now receivers.old.items }
    requires few { length incoming.items < 2 ^ 32 }
    ensures receivers { IfOk result (λ _.
        AreReceivers (length incoming.items) queues.now receivers.new.items) }
    ensures many { IfOk result (λ posts. length posts.items ≡ length incoming.items) }
    ensures posts { IfOk result (λ posts.
        AreEach (IsListener queues.now size incoming.items) posts.items) }
{
    let mut posts = Vec::new(alloc);
    let listeners = incoming.len() as u32;
    for link in incoming {
        let place = posts.len() as u32;
        let senders = senders_to(alloc, queues, receivers, place)?;
        let buffer = vec![in alloc; 0; size]?;
        posts.push(Post::Listener {
            place,
            listeners,
            link,
            senders,
            buffer,
        })?;
    }
    Ok(posts)
}

/// The workers' posts, behind the others.
fn add_workers<N: LinkIn, O: LinkOut>(
    posts: &mut Vec<Post<N, O>>,
    receivers: Vec<Receiver>,
) -> Result<(), Memory>
    requires { length receivers.items < 2 ^ 32 }
    ensures { OnOk result (AddsEach (HasReceiver receivers.items) (length receivers.items)
        posts.old.items posts.new.items) }
{
    let mut place = 0;
    for receiver in receivers {
        posts.push(Post::Worker { place, receiver })?;
        place += 1;
    }
    Ok(())
}

/// Posts of callers that only end, behind the others, until there are so many.
fn add_spares<N: LinkIn, O: LinkOut>(
    posts: &mut Vec<Post<N, O>>,
    pairs: usize,
) -> Result<(), Memory>
    requires { length posts.old.items ≤ pairs }
    ensures { OnOk result (AddsEach (λ _ one. IsSpare one) (pairs - length posts.old.items)
        posts.old.items posts.new.items) }
{
    'adding: for _ in posts.len()..pairs {
        posts.push(Post::Spare)?;
    }
    Ok(())
}

/// The posts of the callers of odd numbers.
fn odd_posts<N: LinkIn, O: LinkOut>(
    alloc: Global,
    outgoing: Vec<([u8; 32], O)>,
    shards: usize,
    pairs: usize,
) -> Result<Vec<Post<N, O>>, Memory>
    requires { length outgoing.items + 2 ≤ pairs }
    ensures many { IfOk result (λ posts. length posts.items ≡ pairs) }
    ensures posts { IfOk result (λ posts. AreOdd shards outgoing.items posts.items) }
{
    let hops = hops_of(alloc, &outgoing)?;
    let mut posts = Vec::new(alloc);
    posts.push(Post::Keeper { hops })?;
    add_connectors(&mut posts, outgoing)?;
    let tried = vec![in alloc; 0; shards]?;
    posts.push(Post::Rotator { tried })?;
    add_spares(&mut posts, pairs)?;
    Ok(posts)
}

/// The hops that these links lead to.
fn hops_of<O: LinkOut>(alloc: Global, outgoing: &[([u8; 32], O)]) -> Result<Vec<[u8; 32]>, Memory>
    ensures { IfOk result (λ hops. hops.items ≡ map (λ link. link.0) outgoing.now) }
{
    let mut hops = Vec::new(alloc);
    for (hop, _) in outgoing {
        hops.push(*hop)?;
    }
    Ok(hops)
}

/// The connectors' posts, behind the others.
fn add_connectors<N: LinkIn, O: LinkOut>(
    posts: &mut Vec<Post<N, O>>,
    outgoing: Vec<([u8; 32], O)>,
) -> Result<(), Memory>
    ensures { OnOk result (AddsEach (IsConnector outgoing.items) (length outgoing.items)
        posts.old.items posts.new.items) }
{
    for (hop, link) in outgoing {
        posts.push(Post::Connector { hop, link })?;
    }
    Ok(())
}

/// Both lists in turn, beginning with the first.
fn weave<T: Drop>(alloc: Global, evens: Vec<T>, odds: Vec<T>) -> Result<Vec<T>, Memory>
    requires { length odds.items ≡ length evens.items }
    ensures { IfOk result (λ woven. IsWoven evens.items odds.items woven.items) }
{
    let mut woven = Vec::new(alloc);
    let mut rest = odds.into_iter();
    for even in evens {
        let Some(odd) = rest.next() else {
            unreachable!()
        };
        woven.push(even)?;
        woven.push(odd)?;
    }
    Ok(woven)
}
