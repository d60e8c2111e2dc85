// A listener: it numbers the packets that arrive over its link, and hands them to the workers in turn. Where a worker's
// queue is full, it deals with the packet itself.
ghost use Rattle.std.specs.Prelude.{◌≡◌, [], ◌++◌, ◌<◌, ◌≤◌, ◌^◌, length, IfSome, IsSomeAnd, IfErr, is_ok};
ghost use Rattle.mix_base.specs.Faults.{Rose};
ghost use Rattle.mix_links.specs.Links.{EndsShort, IsFailed, Takes};
ghost use Rattle.node_actors.specs.Fates.{HasDealt};
ghost use Rattle.node_actors.specs.Listening.{AreFinished, AreOpenTo, AreSenders, EndsBy, KeepsListening, Listened, PushesWhere, kept_where, listened, taken_packet};
ghost use Rattle.node_actors.specs.Packets.{dealt_packets, packet_of, packet_with};
ghost use Rattle.node_actors.specs.Seats.{IsSameSeat, MovesNothing};

use crate::actors::dealing::{Dealer, DealerEnd};
use crate::actors::gates::OpenGate;
use crate::actors::turns::ShardPass;
use crate::queues::{Arrival, Full, PacketQueue, Sender};
use mix_base::{Bytes, History, Suite};
use mix_links::{Arrived, Clock, LinkIn};
use replay_disk::Rack;
use std::alloc::Global;
use std::marker::Model;
use std::snapshot::Snapshot;
use std::sync::Wait;

/// A packet that a listener took from its link: its number, the moment of its receipt in milliseconds, its bytes, and the
/// worker whose turn it was. It was handed to that worker, or the listener dealt with it. It is there for contracts alone.
#[derive(Drop)]
pub struct Taken {
    pub number: u64,
    pub receipt: u64,
    pub packet: Snapshot<Vec<u8>>,
    pub worker: usize,
    pub handed: bool,
}

/// Why a listener ended.
#[derive(Clone, Copy, Debug, PartialEq, Eq)]
pub enum Ending {
    /// The link came to its end: less than a packet was left, so many bytes.
    Short { cut: usize },
    /// The link failed.
    Failed,
    /// All numbers below 2^64 that are the listener's were given.
    Numbers,
}

/// The listener of an incoming link, number `place` of so many, counted from 0.
#[derive(Drop)]
pub struct Listener<'a, H: Wait, R: Rack, S: Suite, N: LinkIn, C: Clock> {
    pub(crate) dealer: Dealer<'a, H, R, S>,
    pub(crate) clock: &'a C,
    pub(crate) link: N,
    pub(crate) queues: &'a [PacketQueue],
    pub(crate) senders: Vec<Sender>,
    /// Of the packets' length.
    pub(crate) buffer: Vec<u8>,
    pub(crate) place: u64,
    pub(crate) listeners: u64,
    /// The next packet's number.
    pub(crate) next: Option<u64>,
    /// The worker whose turn it is.
    pub(crate) worker: usize,
    pub(crate) course: History<Taken>,
}

impl<'a, H: Wait, R: Rack, S: Suite, N: LinkIn, C: Clock> Model for Listener<'a, H, R, S, N, C> {
    ghost use Rattle.std.specs.Prelude.{◌<◌, length};
    ghost use Rattle.node_actors.specs.Listening.{HasListened, ListenerState};

    ghost Value = { ListenerState C };

    ghost view = { λ l.
        record {
          post = record {
            clock = l.clock.now;
            queues = l.queues.now;
            size = length l.buffer.items;
            place = l.place;
            listeners = l.listeners;
          };
          dealer = l.dealer;
          link = record { left = N.left l.link; faults = N.faults l.link };
          senders = l.senders.items;
          next = l.next;
          worker = l.worker;
          course = l.course.items;
        } };

    ghost invariant = { λ l. (0 < length l.buffer.items)
        × HasListened C.may_give (record {
          post = record {
            clock = l.clock.now;
            queues = l.queues.now;
            size = length l.buffer.items;
            place = l.place;
            listeners = l.listeners;
          };
          dealer = l.dealer;
          link = record { left = N.left l.link; faults = N.faults l.link };
          senders = l.senders.items;
          next = l.next;
          worker = l.worker;
          course = l.course.items;
        }) };
}

/// A listener that has ended.
#[derive(Drop)]
pub struct ListenerEnd<'a, H: Wait, R: Rack, S: Suite, N: LinkIn> {
    pub(crate) dealer: DealerEnd<'a, H, R, S>,
    pub(crate) link: N,
    pub(crate) senders: Vec<Sender>,
    pub(crate) course: History<Taken>,
    pub(crate) ending: Ending,
}

impl<'a, H: Wait, R: Rack, S: Suite, N: LinkIn, C: Clock> Listener<'a, H, R, S, N, C> {
    /// The listener of this place, which has taken nothing yet. Its first packet is for worker 0.
    pub fn new(
        dealer: Dealer<'a, H, R, S>,
        clock: &'a C,
        link: N,
        queues: &'a [PacketQueue],
        senders: Vec<Sender>,
        buffer: Vec<u8>,
        place: u64,
        listeners: u64,
    ) -> Listener<'a, H, R, S, N, C>
        requires some { 0 < length queues.now }
        requires size { 0 < length buffer.items }
        requires open { AreOpenTo queues.now senders.items }
        requires senders { AreSenders place [] senders.items }
        requires log { dealer.log ≡ [] }
        ensures post { result.post ≡ record {
          clock = clock.now;
          queues = queues.now;
          size = length buffer.items;
          place = place;
          listeners = listeners;
        } }
        ensures dealer { result.dealer ≡ dealer.entry }
        ensures link { result.link ≡ record { left = N.left link; faults = N.faults link } }
        ensures course { result.course ≡ [] }
    {
        Listener {
            dealer,
            clock,
            link,
            queues,
            senders,
            buffer,
            place,
            listeners,
            next: place.checked_add(1),
            worker: 0,
            course: History::new(),
        }
    }

    /// Takes packets until the link ends or fails, or there are no more numbers; then tells each worker that no more come.
    pub(crate) fn run(mut self) -> ListenerEnd<'a, H, R, S, N>
        ensures seat { IsSameSeat self.entry.dealer.seat result.dealer.seat }
        ensures dealt { HasDealt S.meaning (record {
          seat = result.dealer.seat;
          log = result.dealer.log.items;
          dropped = result.dealer.dropped;
        }) }
        ensures moves { MovesNothing result.dealer.seat.passes }
        ensures course { Listened C.may_give self.entry (listened N.left N.faults result.link
            result.dealer.log.items result.senders.items result.course.items result.ending) }
    {
        let ending = self.serve();
        let Listener {
            dealer,
            clock: _,
            link,
            queues,
            mut senders,
            buffer: _,
            place: _,
            listeners: _,
            next: _,
            worker: _,
            course,
        } = self;
        finish_all(dealer.seat.rt, queues, &mut senders);
        ListenerEnd {
            dealer: dealer.end(),
            link,
            senders,
            course,
            ending,
        }
    }

    /// The passes, where it isn't run.
    pub(crate) fn into_passes(self) -> Vec<ShardPass<R, S>>
        ensures { result.items ≡ self.entry.dealer.seat.passes }
    {
        let Listener {
            dealer,
            clock: _,
            link: _,
            queues: _,
            senders: _,
            buffer: _,
            place: _,
            listeners: _,
            next: _,
            worker: _,
            course: _,
        } = self;
        dealer.into_passes()
    }

    /// Takes packets until there is no next one, and says why.
    fn serve(&mut self) -> Ending
        ensures kept { KeepsListening self.old self.new }
        ensures ended { EndsBy self.old.post (length self.new.course) self.old.link
            self.new.link result }
    {
        for _ in self.dealer.seat.rt.forever() {
            if let Some(ending) = self.listen() {
                return ending;
            }
        }
        unreachable!()
    }

    /// Takes the next packet, or says why there is none.
    fn listen(&mut self) -> Option<Ending>
        ensures kept { KeepsListening self.old self.new }
        ensures ended { IfSome result (EndsBy self.old.post (length self.new.course) self.old.link
            self.new.link) }
    {
        let Some(number) = self.next else {
            return Some(Ending::Numbers);
        };
        match take_next(&mut self.link, &mut self.buffer) {
            Arrived::Packet => {
                let taken = hand_over(
                    &mut self.dealer,
                    self.queues,
                    &mut self.senders,
                    self.worker,
                    number,
                    self.clock.now(),
                    &self.buffer,
                );
                self.course.push(&taken);
                self.worker = (self.worker + 1) % self.queues.len();
                self.next = number.checked_add(self.listeners);
                None
            }
            Arrived::End { cut } => Some(Ending::Short { cut }),
            Arrived::Failed => Some(Ending::Failed),
        }
    }
}

/// Takes the next packet into the buffer.
fn take_next<N: LinkIn>(link: &mut N, buffer: &mut Vec<u8>) -> Arrived
    requires { 0 < length buffer.old.items }
    ensures size { length buffer.new.items ≡ length buffer.old.items }
    ensures taken { IfSome (N.left link.old) (λ before.
        IsSomeAnd (N.left link.new) (λ after. Takes result before buffer.new.items after)) }
    ensures short { EndsShort result (length buffer.old.items) }
    ensures failed { IsFailed result → Rose (N.faults link.old) (N.faults link.new) }
    ensures count { N.faults link.old ≤ N.faults link.new }
{
    link.next_packet(buffer.as_mut_slice())
}

/// Hands the packet to the worker whose turn it is. Where that one's queue is full, or memory is wanting, it is dealt with
/// here.
fn hand_over<H: Wait, R: Rack, S: Suite>(
    dealer: &mut Dealer<'_, H, R, S>,
    queues: &[PacketQueue],
    senders: &mut Vec<Sender>,
    worker: usize,
    number: u64,
    receipt: u64,
    packet: &Vec<u8>,
) -> Taken
    requires open { AreOpenTo queues.now senders.old.items }
    requires worker { worker < length queues.now }
    requires moment { receipt < 2 ^ 60 }
    ensures seat { IsSameSeat dealer.old.seat dealer.new.seat }
    ensures taken { taken_packet result ≡ packet_with number receipt packet.now.items }
    ensures worker { result.worker ≡ worker }
    ensures open { AreOpenTo queues.now senders.new.items }
    ensures handed { PushesWhere result.handed worker (packet_with number receipt packet.now.items)
        senders.old.items senders.new.items }
    ensures log { dealt_packets dealer.new.log ≡ dealt_packets dealer.old.log
        ++ kept_where result.handed (packet_with number receipt packet.now.items) }
{
    let handed = is_handed(dealer, queues, senders, worker, number, receipt, packet);
    Taken {
        number,
        receipt,
        packet: Snapshot::of(packet),
        worker,
        handed,
    }
}

/// Pushes the packet to the queue of the worker whose turn it is, and says whether that was done. Else deals with it.
fn is_handed<H: Wait, R: Rack, S: Suite>(
    dealer: &mut Dealer<'_, H, R, S>,
    queues: &[PacketQueue],
    senders: &mut Vec<Sender>,
    worker: usize,
    number: u64,
    receipt: u64,
    packet: &Vec<u8>,
) -> bool
    requires open { AreOpenTo queues.now senders.old.items }
    requires worker { worker < length queues.now }
    requires moment { receipt < 2 ^ 60 }
    ensures seat { IsSameSeat dealer.old.seat dealer.new.seat }
    ensures open { AreOpenTo queues.now senders.new.items }
    ensures handed { PushesWhere result worker (packet_with number receipt packet.now.items)
        senders.old.items senders.new.items }
    ensures log { dealt_packets dealer.new.log ≡ dealt_packets dealer.old.log
        ++ kept_where result (packet_with number receipt packet.now.items) }
{
    let Some(copy) = copy_of(dealer.alloc(), packet.as_slice()) else {
        dealer.lose(number, receipt, Snapshot::of(packet));
        return false;
    };
    let arrival = arrival_of(number, receipt, copy);
    match push_to(dealer.rt(), queues, senders, worker, arrival) {
        Ok(()) => true,
        Err(Full { arrival }) => {
            dealer.deal(&OpenGate, 0, arrival);
            false
        }
    }
}

/// A copy of the packet, or None where memory is wanting.
fn copy_of(alloc: Global, packet: &[u8]) -> Option<Vec<u8>>
    ensures { IfSome result (λ copy. copy.items ≡ packet.now) }
{
    match Vec::from_slice(alloc, packet) {
        Ok(copy) => Some(copy),
        Err(_) => None,
    }
}

/// An arrival of these parts.
fn arrival_of(number: u64, receipt: u64, packet: Vec<u8>) -> Arrival
    requires { receipt < 2 ^ 60 }
    ensures { packet_of result ≡ packet_with number receipt packet.items }
{
    Arrival {
        number,
        receipt,
        packet: Bytes::of(packet),
    }
}

/// Pushes the arrival to a worker's queue.
fn push_to<H: Wait>(
    rt: &H,
    queues: &[PacketQueue],
    senders: &mut Vec<Sender>,
    worker: usize,
    arrival: Arrival,
) -> Result<(), Full>
    requires open { AreOpenTo queues.now senders.old.items }
    requires worker { worker < length queues.now }
    ensures open { AreOpenTo queues.now senders.new.items }
    ensures back { IfErr result (λ full. full.arrival ≡ arrival) }
    ensures pushed { PushesWhere (is_ok result) worker (packet_of arrival)
        senders.old.items senders.new.items }
{
    let queue = &queues[worker];
    queue.push(rt, &mut senders[worker], arrival)
}

/// Tells each worker that no more packets come.
fn finish_all<H: Wait>(rt: &H, queues: &[PacketQueue], senders: &mut Vec<Sender>)
    requires { AreOpenTo queues.now senders.old.items }
    ensures { AreFinished senders.old.items senders.new.items }
{
    for worker in 0..queues.len() {
        queues[worker].finish(rt, &mut senders[worker]);
    }
}
