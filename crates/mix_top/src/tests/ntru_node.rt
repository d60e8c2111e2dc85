// A node of the suite after sntrup4591761, and a packet for it, by the program's commands.
use super::there_and_back::{word_at, written};
use prim_std::sha256;
use std::alloc::Global;
use std::process::Abort;
use std::test::Fail;

/// 32 bytes of these two digits.
fn thirty_two(alloc: Global, digits: &str) -> Result<String, Fail> {
    Ok(digits.repeat(alloc, 32)?)
}

/// A packet of one hop for the node whose seed is all zeros in epoch 0: a body of 2,000 bytes 41 to the recipient of 32
/// bytes 22.
fn one_hop(rt: &impl Abort, alloc: Global) -> Result<String, Fail> {
    let zeros = thirty_two(alloc, "00")?;
    let line = written(
        rt,
        alloc,
        format!(in alloc; "keys ntru {zeros} 0")?.as_str(),
        "",
    )?;
    let key = word_at(alloc, line.as_str(), 0, 2)?;
    let seed = thirty_two(alloc, "01")?;
    let id = thirty_two(alloc, "11")?;
    let recipient = thirty_two(alloc, "22")?;
    let body = "41".repeat(alloc, 2000)?;
    let request = format!(in alloc;
        "packet ntru 5 2000 {seed}\nhop {id} {key} -\nto {recipient} {body}\n"
    )?;
    let made = written(rt, alloc, "make", request.as_str())?;
    word_at(alloc, made.as_str(), 1, 1)
}

/// The replay tag of a packet: the hash of its 1,047 bytes of ciphertext.
fn tag(alloc: Global, packet: &str) -> Result<String, Fail> {
    let bytes = hex::decode(alloc, packet)?;
    let Some(ciphertext) = bytes.get(2..1049) else {
        return Err(Fail::from("too short"));
    };
    Ok(hex::encode(alloc, &sha256(ciphertext))?)
}

/// The packet whose first rounded field is 1531, which no ciphertext has.
fn out_of_range(alloc: Global, packet: &str) -> Result<String, Fail> {
    let Some((front, behind)) = packet.split_at_checked(68) else {
        return Err(Fail::from("too short"));
    };
    let Some((_, rest)) = behind.split_at_checked(8) else {
        return Err(Fail::from("too short"));
    };
    Ok(format!(in alloc; "{front}fb050000{rest}")?)
}

// The key of epoch 0 decapsulates what was encapsulated to it, and refuses a ciphertext that doesn't decode.
#[test]
fn a_packet_is_delivered_and_one_whose_ciphertext_is_out_of_range_is_sealed(
    rt: HostRuntime,
) -> Result<(), Fail> {
    let alloc = rt.alloc();
    let packet = one_hop(&rt, alloc)?;
    let other = out_of_range(alloc, packet.as_str())?;
    let zeros = thirty_two(alloc, "00")?;
    let script = format!(in alloc;
        "node ntru 5 2000 1 1200000 120000 {zeros}\nrecv 1000 {packet}\nrecv 1000 {other}\npeel 0\npeel 1\nclaim 0\nsend 1000\n"
    )?;
    let report = written(&rt, alloc, "drive", script.as_str())?;
    let tag = tag(alloc, packet.as_str())?;
    let recipient = thirty_two(alloc, "22")?;
    let body = "41".repeat(alloc, 2000)?;
    let owed = format!(in alloc; "refuse 2 sealed\ndeliver 1 0 {tag} {recipient} {body} -\n")?;
    assert!(rt; report == owed);
    Ok(())
}
