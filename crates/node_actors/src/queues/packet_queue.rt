// The queue itself. Whoever finds it empty, or full for an end mark, sleeps until something was pushed or popped.
ghost use Rattle.std.specs.Prelude.{◌≡◌, ◌+◌, ◌-◌, ◌^◌, ◌<◌, ◌++◌, ◌∷◌, [], Some, None, min, All, IsTrue, IsFalse, IfOk, IfErr, OnOk, MatchOption};
ghost use Rattle.node_actors.specs.Queues.{new_sender, new_receiver, after_sender, after_push, after_pop, after_take_in, mark_of, marks, HasFronts, HasAll, HaveEnds, AreOfSenders, WasFull};

use crate::queues::bell::Bell;
use crate::queues::ends::{Receiver, Sender};
use crate::queues::hands::{Compares, MakesSender, Pops, Pushes, Ring, TakesIn};
use crate::queues::items::{Arrival, Full, Item};
use mix_base::Memory;
use std::alloc::Global;
use std::hint::spin_loop;
use std::marker::Model;
use std::sync::Wait;

/// How many items a queue has room for.
const ROOM: usize = 64;

// How often a receiver looks before it sleeps.
const LOOKS: u32 = 100;

/// A queue with room for 64 items, between several senders and one receiver.
#[derive(Drop)]
pub struct PacketQueue {
    ring: Ring,
    pushes: Bell,
    pops: Bell,
}

impl Model for PacketQueue {
    ghost use Rattle.std.specs.Prelude.{◌≡◌};
    ghost use Rattle.atomic_table.specs.Seated.{TableId};
    ghost use Rattle.crossbeam_queue.specs.Passes.{ruled_capacity};

    ghost Value = { TableId };

    ghost view = { λ q. q.ring.table.shared.table_id };

    ghost invariant = { λ q. ruled_capacity q.ring ≡ 64 };
}

// The count of marks once this item was popped too.
fn with_mark(ended: u64, item: &Item) -> u64
    ensures { result ≡ min (ended + mark_of item.now) (2 ^ 64 - 1) }
{
    if item.arrival.is_none() {
        ended.saturating_add(1)
    } else {
        ended
    }
}

impl PacketQueue {
    /// An empty queue, and its receiver.
    pub fn new(alloc: Global) -> Result<(PacketQueue, Receiver), Memory>
        ensures { IfOk result (λ made. made.1 ≡ new_receiver made.0) }
    {
        let (ring, seat) = Ring::ruled(alloc, ROOM)?;
        let queue = PacketQueue {
            ring,
            pushes: Bell::new(),
            pops: Bell::new(),
        };
        let receiver = Receiver {
            senders: 0,
            ended: 0,
            seat,
        };
        Ok((queue, receiver))
    }

    /// A sender more, numbered from 0.
    pub fn sender(&self, receiver: &mut Receiver) -> Sender
        requires own { receiver.old.queue ≡ self.now }
        requires few { receiver.old.senders < 2 ^ 32 }
        ensures sender { result ≡ new_sender self.now receiver.old.senders }
        ensures receiver { receiver.new ≡ after_sender receiver.old }
    {
        let from = receiver.senders;
        let seat = self.ring.another::<MakesSender>(&mut receiver.seat);
        receiver.senders += 1;
        Sender { from, seat }
    }

    // Pushes an item once, or gives it back where the queue was full.
    fn push_once<R: Wait>(&self, rt: &R, sender: &mut Sender, item: Item) -> Result<(), Item>
        requires own { sender.old.queue ≡ self.now }
        requires open { marks sender.old.pushed ≡ 0 }
        requires from { item.from ≡ sender.old.from }
        ensures ok { OnOk result (sender.new ≡ after_push sender.old item.arrival) }
        ensures err { IfErr result (λ back. (back ≡ item) × (sender.new ≡ sender.old)) }
        ensures full { IfErr result (λ _. WasFull sender.old) }
    {
        if let Err(item) = self.ring.push_as::<Pushes, R>(rt, &mut sender.seat, item) {
            return Err(item);
        }
        self.pushes.ring();
        Ok(())
    }

    /// Pushes the arrival. It gives it back only where the queue was full at a step of this call.
    pub fn push<R: Wait>(&self, rt: &R, sender: &mut Sender, arrival: Arrival) -> Result<(), Full>
        requires own { sender.old.queue ≡ self.now }
        requires open { marks sender.old.pushed ≡ 0 }
        ensures ok { OnOk result (sender.new ≡ after_push sender.old (Some arrival)) }
        ensures err { IfErr result (λ full. (full.arrival ≡ arrival) × (sender.new ≡ sender.old)) }
        ensures full { IfErr result (λ _. WasFull sender.old) }
    {
        let item = Item {
            from: sender.from,
            arrival: Some(arrival),
        };
        match self.push_once(rt, sender, item) {
            Ok(()) => Ok(()),
            Err(Item { from: _, arrival }) => {
                let Some(arrival) = arrival else {
                    unreachable!()
                };
                Err(Full { arrival })
            }
        }
    }

    /// Pushes the end mark, the sender's last item. It waits while the queue is full.
    pub fn finish<R: Wait>(&self, rt: &R, sender: &mut Sender)
        requires own { sender.old.queue ≡ self.now }
        requires open { marks sender.old.pushed ≡ 0 }
        ensures { sender.new ≡ after_push sender.old None }
    {
        for _ in rt.forever() {
            let heard = self.pops.heard();
            let mark = Item {
                from: sender.from,
                arrival: None,
            };
            if self.push_once(rt, sender, mark).is_ok() {
                return;
            }
            self.pops.sleep(rt, heard);
        }
        unreachable!()
    }

    // Pops an item once. None where the queue was empty.
    fn pop_once<R: Wait>(&self, rt: &R, receiver: &mut Receiver) -> Option<Item>
        requires { receiver.old.queue ≡ self.now }
        ensures { MatchOption result (receiver.new ≡ receiver.old) (λ item.
            receiver.new ≡ after_pop receiver.old item) }
    {
        match self.ring.pop_as::<Pops, R>(rt, &mut receiver.seat) {
            None => None,
            Some(item) => {
                receiver.ended = with_mark(receiver.ended, &item);
                self.pops.ring();
                Some(item)
            }
        }
    }

    // Pops an item that is there, or comes soon.
    fn pop_soon<R: Wait>(&self, rt: &R, receiver: &mut Receiver) -> Option<Item>
        requires { receiver.old.queue ≡ self.now }
        ensures { MatchOption result (receiver.new ≡ receiver.old) (λ item.
            receiver.new ≡ after_pop receiver.old item) }
    {
        for _ in 0..LOOKS {
            if let Some(item) = self.pop_once(rt, receiver) {
                return Some(item);
            }
            spin_loop();
        }
        None
    }

    /// Pops the next item. It waits while the queue is empty.
    pub fn pop<R: Wait>(&self, rt: &R, receiver: &mut Receiver) -> Item
        requires { receiver.old.queue ≡ self.now }
        ensures { receiver.new ≡ after_pop receiver.old result }
    {
        for _ in rt.forever() {
            let heard = self.pushes.heard();
            if let Some(item) = self.pop_soon(rt, receiver) {
                return item;
            }
            self.pushes.sleep(rt, heard);
        }
        unreachable!()
    }

    /// Takes a sender in: from now on the receiver knows what it pushed.
    pub fn take_in(&self, receiver: &mut Receiver, sender: Sender)
        requires receiver { receiver.old.queue ≡ self.now }
        requires sender { sender.queue ≡ self.now }
        ensures { receiver.new ≡ after_take_in receiver.old sender }
    {
        let Sender { from: _, seat } = sender;
        self.ring.absorb::<TakesIn>(&mut receiver.seat, seat);
    }

    /// What is known at any time: of each sender that was taken in, what was popped is a front of what it pushed.
    pub fn compare(&self, receiver: &mut Receiver)
        requires { receiver.old.queue ≡ self.now }
        ensures same { receiver.new ≡ receiver.old }
        ensures front { HasFronts receiver.new }
        ensures ends { HaveEnds receiver.new }
        ensures from { AreOfSenders receiver.new }
    {
        self.ring.learn_as::<Compares>(&mut receiver.seat);
    }

    /// What is known once as many marks were popped as there are senders: of each sender that was taken in, all was
    /// popped that it pushed.
    pub fn settle(&self, receiver: &mut Receiver)
        requires own { receiver.old.queue ≡ self.now }
        requires ended { marks receiver.old.popped ≡ receiver.old.senders }
        ensures same { receiver.new ≡ receiver.old }
        ensures all { HasAll receiver.new }
        ensures from { AreOfSenders receiver.new }
    {
        self.ring.learn_as::<Compares>(&mut receiver.seat);
    }
}
