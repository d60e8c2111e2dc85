// The two ends of a queue as their holders see them.
ghost use Rattle.std.specs.Prelude.{◌≡◌, ◌↔◌, IsTrue};
ghost use Rattle.node_actors.specs.Queues.{marks};

use crate::queues::hands::Seat;
use std::marker::Model;

/// The right to push to one queue. What it pushed is there for contracts alone.
#[derive(Drop)]
pub struct Sender {
    pub(crate) from: u64,
    pub(crate) seat: Seat,
}

impl Model for Sender {
    ghost use Rattle.node_actors.specs.Queues.{Sending};
    ghost use Rattle.node_actors.specs.QueueRule.{first_items, IsSender};

    ghost Value = { Sending };

    ghost view = { λ s.
        record {
          queue = s.seat.table_id;
          from = s.from;
          pushed = first_items s.seat.me.0.client.pushed;
        } };

    ghost invariant = { λ s. IsSender s.from s.seat.me };
}

/// The right to pop from one queue, and to make its senders. What it popped, and what those senders pushed that it has
/// taken in, is there for contracts alone.
#[derive(Drop)]
pub struct Receiver {
    pub(crate) senders: u64,
    // How many marks it has popped.
    pub(crate) ended: u64,
    pub(crate) seat: Seat,
}

impl Model for Receiver {
    ghost use Rattle.node_actors.specs.Queues.{Receiving};
    ghost use Rattle.node_actors.specs.QueueRule.{IsReceiver};

    ghost Value = { Receiving };

    ghost view = { λ r.
        record {
          queue = r.seat.table_id;
          senders = r.senders;
          popped = r.seat.me.0.client.popped;
          known = r.seat.me.0.client.pushed;
        } };

    ghost invariant = { λ r. IsReceiver r.senders r.ended r.seat.me };
}

impl Receiver {
    /// Whether it has popped as many marks as it has made senders.
    pub fn is_done(&self) -> bool
        ensures { IsTrue result ↔ (marks self.now.popped ≡ self.now.senders) }
    {
        self.ended == self.senders
    }
}
