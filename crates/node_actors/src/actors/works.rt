// What an actor leaves when it ends.
use crate::actors::fates::Dealt;
use crate::actors::listening::{Ending, Taken};
use crate::actors::takings::Taking;
use crate::queues::{Receiver, Sender};
use mix_base::History;
use mix_links::{LinkIn, LinkOut};

/// What a thread leaves besides its passes. `P` is an unwrapped packet.
#[derive(Drop)]
pub enum Work<P: Drop, N: LinkIn, O: LinkOut> {
    Listened {
        link: N,
        log: History<Dealt<P>>,
        dropped: u64,
        senders: Vec<Sender>,
        course: History<Taken>,
        ending: Ending,
    },
    Worked {
        receiver: Receiver,
        log: History<Dealt<P>>,
        dropped: u64,
    },
    Connected {
        hop: [u8; 32],
        link: O,
        log: History<Taking<P>>,
        unsent: u64,
    },
    Kept {
        local: Vec<P>,
        log: History<Taking<P>>,
        unsent: u64,
    },
    Rotated,
    Ended,
    Fed {
        link: O,
    },
}

/// What a thread leaves: the passes of its seat, `Q` each, and its work.
#[derive(Drop)]
pub struct Left<Q: Drop, P: Drop, N: LinkIn, O: LinkOut> {
    pub passes: Vec<Q>,
    pub work: Work<P, N, O>,
}
