// Packets unwrapped: what goes out, which epoch's key opens them, when they are due, and what is refused.
use super::packets::{
    FIRST_TAG, NINTH_TAG, TENTH_TAG, forwarded, packet, payload, to_maker, to_next_hop,
    to_recipient, to_recipient_after,
};
use super::setting::Rig;
use crate::{Held, PeelFault};
use prim_std::LabSuite;
use sphinx_unwrap::{Out, Refused};
use std::alloc::Global;
use std::test::Fail;

const LENGTH: Option<PeelFault> = Some(PeelFault::Refused(Refused::Length));

const VERSION: Option<PeelFault> = Some(PeelFault::Refused(Refused::Version));

const SEALED: Option<PeelFault> = Some(PeelFault::Refused(Refused::Sealed));

const COMMANDS: Option<PeelFault> = Some(PeelFault::Refused(Refused::Commands));

/// The packet with the seed 32 bytes 01 for an epoch, to the recipient.
fn to_deliver(alloc: Global, epoch: u64) -> Result<Vec<u8>, Fail> {
    packet(alloc, &[1; 32], epoch, &to_recipient())
}

/// A packet that arrives with the number 7 at a moment, unwrapped.
fn unwrapped(alloc: Global, at: u32, packet: Vec<u8>) -> Result<Held<LabSuite>, Fail> {
    let held = Rig::new(alloc, 2)?.peel(alloc, 7, at, packet)??;
    Ok(held)
}

/// Why it isn't unwrapped; None where it is.
fn refusal(alloc: Global, at: u32, packet: Vec<u8>) -> Result<Option<PeelFault>, Fail> {
    Ok(Rig::new(alloc, 2)?.peel(alloc, 7, at, packet)?.err())
}

/// Whether a body of 64 bytes 41 goes to the recipient without a reply block.
fn is_delivered(out: &Out) -> bool {
    match out {
        Out::Deliver {
            recipient,
            body,
            block,
        } => recipient == &[0x22; 32]
            && body.as_slice() == [0x41; 64].as_slice()
            && block.is_none(),
        _ => false,
    }
}

/// Whether this packet goes to the next hop.
fn is_forwarded(out: &Out, wanted: &[u8]) -> bool {
    match out {
        Out::Forward { next, packet } => next == &[0x22; 32] && packet.as_slice() == wanted,
        _ => false,
    }
}

/// Whether the payload goes to the maker of a reply block.
fn is_reply(out: &Out) -> bool {
    match out {
        Out::Reply {
            recipient,
            surb,
            payload: bytes,
        } => {
            recipient == &[0x22; 32]
                && surb == &[0x44; 16]
                && bytes.as_slice() == payload().as_slice()
        }
        _ => false,
    }
}

/// Whether a damaged payload is told to the recipient.
fn is_damaged(out: &Out) -> bool {
    match out {
        Out::Damaged { recipient } => recipient == &[0x22; 32],
        _ => false,
    }
}

#[test]
fn the_key_that_is_live_at_the_receipt_opens_it(rt: HostRuntime) -> Result<(), Fail> {
    let alloc = rt.alloc();
    let rows = [
        (1, 0, 1000, FIRST_TAG),
        (3, 9, 12_050_000, NINTH_TAG),
        (3, 9, 12_119_999, NINTH_TAG),
        (4, 10, 12_050_000, TENTH_TAG),
        (4, 10, 13_080_000, TENTH_TAG),
    ];
    for (seed, epoch, at, tag) in rows {
        let packet = packet(alloc, &[seed; 32], epoch, &to_recipient())?;
        let held = unwrapped(alloc, at, packet)?;
        assert_eq!(rt; held.epoch(), epoch);
        assert_eq!(rt; held.tag(), &tag);
        assert_eq!(rt;
            (held.number(), held.at(), held.due()),
            (7, u64::from(at), u64::from(at))
        );
        assert!(rt; is_delivered(held.out()));
    }
    Ok(())
}

#[test]
fn it_is_due_when_its_delay_has_passed(rt: HostRuntime) -> Result<(), Fail> {
    let alloc = rt.alloc();
    for (delay, due) in [(0, 1000), (1, 1001), (500, 1500), (10_800_000, 10_801_000)] {
        let packet = packet(alloc, &[1; 32], 0, &to_recipient_after(delay))?;
        let held = unwrapped(alloc, 1000, packet)?;
        assert_eq!(rt; held.due(), due);
        assert!(rt; is_delivered(held.out()));
    }
    Ok(())
}

/// The packet with one bit changed, in the byte of this place.
fn changed(packet: Vec<u8>, place: usize) -> Vec<u8> {
    let mut packet = packet;
    if let Some(byte) = packet.get_mut(place) {
        *byte ^= 1;
    }
    packet
}

#[test]
fn packets_of_all_kinds_go_out(rt: HostRuntime) -> Result<(), Fail> {
    let alloc = rt.alloc();
    let onward = unwrapped(alloc, 1000, packet(alloc, &[1; 32], 0, &to_next_hop())?)?;
    assert!(rt; is_forwarded(onward.out(), &forwarded(alloc, &[1; 32])?));
    let reply = unwrapped(alloc, 1000, packet(alloc, &[1; 32], 0, &to_maker())?)?;
    assert!(rt; is_reply(reply.out()));
    let damaged = unwrapped(alloc, 1000, changed(to_deliver(alloc, 0)?, 1621))?;
    assert!(rt; is_damaged(damaged.out()));
    assert_eq!(rt; damaged.tag(), &FIRST_TAG);
    Ok(())
}

#[test]
fn one_key_after_the_other_is_tried(rt: HostRuntime) -> Result<(), Fail> {
    let alloc = rt.alloc();
    // The epoch, the moment of receipt, the place of a changed byte, and the cause. At 12,119,999 epochs 10 and 9 are
    // live, a millisecond later 10 alone.
    let rows = [
        (0, 1000, 0, VERSION),
        (0, 1000, 1, VERSION),
        (0, 1000, 2, SEALED),
        (0, 1000, 49, SEALED),
        (0, 1000, 50, SEALED),
        (0, 1000, 681, SEALED),
        (0, 1000, 682, None),
        (9, 12_119_999, 1621, None),
        (9, 12_119_999, 681, SEALED),
        (9, 12_120_000, 1621, SEALED),
        (11, 13_079_999, 1621, SEALED),
        (11, 13_080_000, 1621, None),
    ];
    for (epoch, at, place, cause) in rows {
        let packet = changed(to_deliver(alloc, epoch)?, place);
        assert_eq!(rt;
            refusal(alloc, at, packet)?,
            cause,
            "{epoch}, {at}, {place}"
        );
    }
    Ok(())
}

/// Commands with a byte behind the last.
fn with_more() -> [u8; 72] {
    let mut commands = to_recipient();
    commands[71] = 1;
    commands
}

/// The first packet cut or filled up with zeros to this length.
fn of_length(alloc: Global, length: usize) -> Result<Vec<u8>, Fail> {
    let mut packet = to_deliver(alloc, 0)?;
    packet.resize(length, 0)?;
    Ok(packet)
}

#[test]
fn lengths_and_commands_are_refused(rt: HostRuntime) -> Result<(), Fail> {
    let alloc = rt.alloc();
    for length in [0, 1, 1621, 1623] {
        let cause = refusal(alloc, 1000, of_length(alloc, length)?)?;
        assert_eq!(rt; cause, LENGTH, "{length}");
    }
    // The length comes before the version.
    let cause = refusal(alloc, 1000, changed(of_length(alloc, 1621)?, 0))?;
    assert_eq!(rt; cause, LENGTH);
    let more = packet(alloc, &[1; 32], 0, &with_more())?;
    let cause = refusal(alloc, 1000, more)?;
    assert_eq!(rt; cause, COMMANDS);
    Ok(())
}
