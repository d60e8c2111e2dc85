// What the client sends: packets, each to a node of the first layer, over its line to that node.
ghost use Rattle.std.specs.Prelude.{◌≡◌, ◌++◌, IfOk, OnOk, map};
ghost use Rattle.std.specs.List.{AllZip};
ghost use Rattle.mix_waves.specs.Sending.{message_seen};
ghost use Rattle.net_run.specs.Feeds.{IsFeedFor, packets_to, post_of_message, post_of_reply};

use mix_base::Bytes;
use mix_links::LinkOut;
use mix_waves::Message;
use node_actors::Feed;
use reply_blocks::Answered;
use std::alloc::{AllocError, Global};

/// A packet that the client sends, and the id of the node that it goes to.
#[derive(Drop)]
pub(crate) struct Post {
    pub(crate) to: [u8; 32],
    pub(crate) packet: Bytes,
}

/// What is sent for these messages, in their order.
pub(crate) fn post_messages(alloc: Global, messages: &[Message]) -> Result<Vec<Post>, AllocError>
    ensures { IfOk result (λ posts.
        posts.items ≡ map post_of_message (map message_seen messages.now)) }
{
    let mut posts = Vec::new(alloc);
    'messages: for message in messages {
        let packet = Bytes::of(message.packet.as_slice().to_vec(alloc)?);
        posts.push(Post {
            to: message.first,
            packet,
        })?;
    }
    Ok(posts)
}

/// What is sent for these replies, in their order.
pub(crate) fn post_replies(alloc: Global, replies: &[Answered]) -> Result<Vec<Post>, AllocError>
    ensures { IfOk result (λ posts. posts.items ≡ map post_of_reply replies.now) }
{
    let mut posts = Vec::new(alloc);
    'replies: for reply in replies {
        let packet = Bytes::of(reply.packet.as_slice().to_vec(alloc)?);
        posts.push(Post {
            to: reply.first,
            packet,
        })?;
    }
    Ok(posts)
}

/// A feed over each line of the client, of the packets that go to the node at its other end.
pub(crate) fn make_feeds<O: LinkOut>(
    alloc: Global,
    client: Vec<([u8; 32], O)>,
    posts: &[Post],
) -> Result<Vec<Feed<O>>, AllocError>
    ensures { IfOk result (λ feeds.
        AllZip (IsFeedFor posts.now) client.items feeds.items) }
{
    let mut feeds = Vec::new(alloc);
    'links: for (id, link) in client {
        let packets = packets_for(alloc, &id, posts)?;
        feeds.push(Feed { link, packets })?;
    }
    Ok(feeds)
}

/// The packets that go to the node of this id, in their order.
fn packets_for(alloc: Global, id: &[u8; 32], posts: &[Post]) -> Result<Vec<Vec<u8>>, AllocError>
    ensures { IfOk result (λ packets.
        map (λ packet. packet.items) packets.items ≡ packets_to id.now posts.now) }
{
    let mut packets = Vec::new(alloc);
    'posts: for post in posts {
        if post.to == *id {
            packets.push(post.packet.as_slice().to_vec(alloc)?)?;
        }
    }
    Ok(packets)
}
