// Lengths and boundaries of geometries, and commands at each boundary of their grammar, both ways.
use crate::{Cmds, Exit, Geometry, GeometryFault, read_cmds, write_cmds};
use std::test::Fail;

const ID: [u8; 32] = [0x11; 32];

const MAC: [u8; 32] = [0x22; 32];

const SURB: [u8; 16] = [0x44; 16];

/// The sizes and lengths of a geometry: ciphertext, hops and body; slot, routing information and header; block,
/// payload and packet.
type Lengths = ([usize; 3], [usize; 3], [usize; 3]);

fn lengths_of(geo: &Geometry) -> Lengths {
    (
        [geo.ct(), geo.hops(), geo.body()],
        [geo.slot(), geo.routing(), geo.header()],
        [geo.block(), geo.payload(), geo.packet()],
    )
}

#[test]
fn lengths_of_a_geometry(rt: HostRuntime) -> Result<(), Fail> {
    let rows: [Lengths; 5] = [
        ([48, 5, 64], [120, 600, 682], [842, 940, 1622]),
        ([1047, 5, 2000], [1119, 5595, 6676], [6836, 8870, 15546]),
        ([48, 1, 200], [120, 120, 202], [362, 596, 798]),
        ([0, 1, 1], [72, 72, 106], [266, 301, 407]),
        ([4096, 5, 4096], [4168, 20840, 24970], [25130, 29260, 54230]),
    ];
    for row in rows {
        let [ct, hops, body] = row.0;
        if ct > 4096 {
            return Err(Fail::from("a ciphertext past the limit"));
        }
        let Ok(geo) = Geometry::new(ct, hops, body) else {
            return Err(Fail::from("no geometry"));
        };
        assert_eq!(rt; lengths_of(&geo), row);
    }
    Ok(())
}

#[test]
fn hops_are_judged_before_the_body(rt: HostRuntime) {
    let rows = [
        (0, 64, Some(GeometryFault::Hops)),
        (1, 64, None),
        (5, 64, None),
        (6, 64, Some(GeometryFault::Hops)),
        (6, 0, Some(GeometryFault::Hops)),
        (0, 4097, Some(GeometryFault::Hops)),
        (usize::MAX, 64, Some(GeometryFault::Hops)),
        (5, 0, Some(GeometryFault::Body)),
        (5, 1, None),
        (5, 4096, None),
        (5, 4097, Some(GeometryFault::Body)),
        (1, usize::MAX, Some(GeometryFault::Body)),
    ];
    for (hops, body, fault) in rows {
        assert_eq!(rt; Geometry::new(48, hops, body).err(), fault);
    }
}

/// These bytes with zeros behind them, up to the 72 of a slot.
fn slot(parts: &[&[u8]]) -> [u8; 72] {
    let mut bytes = [0; 72];
    let mut at = 0;
    for part in parts {
        for byte in *part {
            if at < 72 {
                bytes[at] = *byte;
                at += 1;
            }
        }
    }
    bytes
}

/// The slot with another byte at a place.
fn changed(mut bytes: [u8; 72], place: usize, byte: u8) -> [u8; 72] {
    if place < 72 {
        bytes[place] = byte;
    }
    bytes
}

const HOP: Exit = Exit::Hop {
    id: [0x11; 32],
    mac: [0x22; 32],
};

const RECIPIENT: Exit = Exit::Recipient { id: [0x11; 32] };

const REPLY: Exit = Exit::Reply {
    id: [0x11; 32],
    surb: [0x44; 16],
};

#[test]
fn commands_are_written_and_read_as_their_grammar_says(rt: HostRuntime) -> Result<(), Fail> {
    let rows = [
        (None, HOP, slot(&[&[1], &ID, &MAC])),
        (None, RECIPIENT, slot(&[&[2], &ID])),
        (None, REPLY, slot(&[&[2], &ID, &[3], &SURB])),
        (Some(0), HOP, slot(&[&[0x80, 0, 0, 0, 0, 1], &ID, &MAC])),
        (Some(0), RECIPIENT, slot(&[&[0x80, 0, 0, 0, 0, 2], &ID])),
        (
            Some(500),
            REPLY,
            slot(&[&[0x80, 0, 0, 1, 0xf4, 2], &ID, &[3], &SURB]),
        ),
        (
            Some(10_800_000),
            HOP,
            slot(&[&[0x80, 0, 0xa4, 0xcb, 0x80, 1], &ID, &MAC]),
        ),
    ];
    for (delay, exit, bytes) in rows {
        let cmds = Cmds { delay, exit };
        assert_eq!(rt; read_cmds(&bytes), Some(cmds));
        if !cmds.is_allowed() {
            return Err(Fail::from("a delay that is too long"));
        }
        assert_eq!(rt; write_cmds(&cmds), bytes);
    }
    let late = Cmds {
        delay: Some(10_800_001),
        exit: HOP,
    };
    assert!(rt; !late.is_allowed());
    Ok(())
}

#[test]
fn bytes_outside_the_grammar_are_no_commands(rt: HostRuntime) {
    let hop = slot(&[&[1], &ID, &MAC]);
    let late_hop = slot(&[&[0x80, 0, 0xa4, 0xcb, 0x80, 1], &ID, &MAC]);
    let recipient = slot(&[&[2], &ID]);
    let reply = slot(&[&[2], &ID, &[3], &SURB]);
    let rows = [
        [0; 72],
        // a delay that is too long
        slot(&[&[0x80, 0, 0xa4, 0xcb, 0x81, 1], &ID, &MAC]),
        slot(&[&[0x80, 0xff, 0xff, 0xff, 0xff, 2], &ID]),
        // a byte behind the last command
        changed(late_hop, 70, 1),
        changed(late_hop, 71, 1),
        changed(hop, 65, 1),
        changed(hop, 71, 1),
        changed(recipient, 33, 1),
        changed(recipient, 33, 4),
        changed(recipient, 34, 1),
        changed(recipient, 71, 1),
        changed(reply, 50, 1),
        changed(reply, 71, 1),
        // a reply behind a next hop, and one without a recipient
        changed(hop, 65, 3),
        slot(&[&[3], &SURB]),
        // a delay alone, two delays, and a delay behind the exit
        slot(&[&[0x80, 0, 0, 0, 1]]),
        slot(&[&[0x80, 0, 0, 0, 1, 0x80, 0, 0, 0, 1, 2], &ID]),
        slot(&[&[2], &ID, &[0x80, 0, 0, 0, 1]]),
        // two exits
        slot(&[&[2], &ID, &[2], &ID]),
        // first bytes that begin nothing
        changed(recipient, 0, 4),
        changed(recipient, 0, 0x81),
        changed(recipient, 0, 0x7f),
    ];
    for bytes in rows {
        assert_eq!(rt; read_cmds(&bytes), None);
    }
}
