// Feeds: packets that are sent over a link from outside of all nodes.
ghost use Rattle.std.specs.Prelude.{map};
ghost use Rattle.node_actors.specs.Handing.{HandsFeed, link_out};

use mix_links::LinkOut;

/// A link, and the packets that are sent over it in their order. A failed send is passed over. Then the link is finished.
#[derive(Drop)]
pub struct Feed<O: LinkOut> {
    pub link: O,
    pub packets: Vec<Vec<u8>>,
}

impl<O: LinkOut> Feed<O> {
    /// Sends the packets and finishes the link.
    pub(crate) fn run(self) -> O
        ensures { HandsFeed (map (λ packet. packet.items) self.packets.items)
            (link_out O.given O.faults self.link) (link_out O.given O.faults result) }
    {
        let Feed { mut link, packets } = self;
        for packet in &packets {
            let _ = link.send(packet.as_slice());
        }
        let _ = link.finish();
        link
    }
}
