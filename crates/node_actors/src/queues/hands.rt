// What each pass of a queue knows, and how that changes. It is there for proofs alone: no value of these types is made.
ghost use Rattle.std.specs.Prelude.{◌≡◌, ◌∷◌, ◌++◌, []};

use crate::queues::items::Item;
use crossbeam_queue::protocol::{Join, Lesson, Outcome, Protocol, Split};
use crossbeam_queue::{Pass, RuledArrayQueue};
use std::collections::LinkedList;

/// What one sender pushed, in its order. It is there for contracts alone.
pub struct Sent {
    pub from: u64,
    pub items: LinkedList<Item>,
}

// What a pass knows: the receiver's is home. It has made so many senders and popped these items. A pass speaks for some
// senders, and knows what each of them pushed.
pub struct Hand {
    pub home: bool,
    pub senders: u64,
    pub popped: LinkedList<Item>,
    pub pushed: LinkedList<Sent>,
}

pub(crate) type Ring = RuledArrayQueue<Item, Hand, Posted>;

pub(crate) type Seat = Pass<Item, Hand>;

// The rule: each sender's items are popped in its order, and its mark is the last.
pub struct Posted;

impl Protocol<Item, Hand> for Posted {
    ghost use Rattle.std.specs.Prelude.{[]};
    ghost use Rattle.node_actors.specs.QueueRule.{at_home, IsPosted};

    ghost holds = { IsPosted };

    ghost first = { at_home 0 [] [] };
}

// The receiver's pass makes a sender's.
pub(crate) struct MakesSender;

impl Split<Hand> for MakesSender {
    ghost use Rattle.std.specs.Prelude.{◌+◌, []};
    ghost use Rattle.node_actors.specs.QueueRule.{at_home, sending};

    ghost left = { λ v. at_home (v.senders + 1) v.popped v.pushed };

    ghost right = { λ v. sending v.senders [] };
}

// The receiver's pass takes a sender's in.
pub(crate) struct TakesIn;

impl Join<Hand> for TakesIn {
    ghost use Rattle.std.specs.Prelude.{◌++◌};
    ghost use Rattle.node_actors.specs.QueueRule.{at_home, spent};

    ghost both = { λ v w. at_home v.senders v.popped (v.pushed ++ w.pushed) };

    ghost spent = { spent };
}

pub(crate) struct Pushes;

impl Outcome<Item, Hand> for Pushes {
    ghost use Rattle.std.specs.Prelude.{◌≡◌, ◌++◌, ◌∷◌, []};
    ghost use Rattle.node_actors.specs.QueueRule.{sending, first_items};

    ghost then = { λ v x w. w ≡ sending x.from (first_items v.pushed ++ x ∷ []) };
}

impl Lesson<Item, Hand> for Pushes {
    ghost use Rattle.node_actors.specs.QueueRule.{HoldsRest};

    ghost fact = { λ v items. HoldsRest v.pushed items };
}

pub(crate) struct Pops;

impl Outcome<Item, Hand> for Pops {
    ghost use Rattle.std.specs.Prelude.{◌≡◌, ◌++◌, ◌∷◌, []};
    ghost use Rattle.node_actors.specs.QueueRule.{at_home};

    ghost then = { λ v x w. w ≡ at_home v.senders (v.popped ++ x ∷ []) v.pushed };
}

impl Lesson<Item, Hand> for Pops {
    ghost use Rattle.std.specs.Prelude.{⊤};

    ghost fact = { λ v items. ⊤ };
}

// What the receiver learns of the senders that it has taken in.
pub(crate) struct Compares;

impl Lesson<Item, Hand> for Compares {
    ghost use Rattle.node_actors.specs.QueueRule.{Tells};

    ghost fact = { λ v items. Tells v items };
}
