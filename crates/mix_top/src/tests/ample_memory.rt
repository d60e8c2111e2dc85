// With ample memory nothing is refused for want of it: 300 packets of the largest laboratory size, over four workers.
use super::packets::{packet_in, tag, to_recipient};
use crate::{Bench, mix_command};
use lab_text::Status;
use mix_base::{MemSink, MemSource};
use std::alloc::Global;
use std::test::Fail;

/// The node that the packets are for, in the largest geometry: five hops and a body of 4,096 bytes.
const NODE: &str =
    "node lab 5 4096 1 1200000 120000 0000000000000000000000000000000000000000000000000000000000000000\n";

/// What the four workers claim, after each of them unwrapped a packet.
const CLAIMS: &str = "claim 0\nclaim 1\nclaim 2\nclaim 3\n";

/// The seed of the packet of this number.
fn seed_of(number: u16) -> [u8; 32] {
    let mut seed = [7; 32];
    seed[..2].copy_from_slice(&number.to_be_bytes());
    seed
}

/// The lines by which the packet of this number arrives and a worker unwraps it.
fn arrival(alloc: Global, number: u16, worker: u16) -> Result<String, Fail> {
    let body = [0x41; 4096];
    let packet = packet_in(alloc, &seed_of(number), 0, &to_recipient(), &body)?;
    let packet = hex::encode(alloc, &packet)?;
    Ok(format!(in alloc; "recv 1000 {packet}\npeel {worker}\n")?)
}

/// The line by which it is handed on.
fn delivery(alloc: Global, number: u16) -> Result<String, Fail> {
    let tag = hex::encode(alloc, &tag(alloc, &seed_of(number), 0))?;
    let recipient = hex::encode(alloc, &[0x22; 32])?;
    let body = hex::encode(alloc, &[0x41; 4096])?;
    Ok(format!(in alloc; "deliver {number} 0 {tag} {recipient} {body} -\n")?)
}

/// The script, and the report that it is owed.
fn script_and_report(alloc: Global) -> Result<(Vec<u8>, Vec<u8>), Fail> {
    let mut script = NODE.as_bytes().to_vec(alloc)?;
    let mut report = Vec::new(alloc);
    for place in 0..300u16 {
        let worker = place % 4;
        script.extend_from_slice(arrival(alloc, place + 1, worker)?.as_bytes())?;
        report.extend_from_slice(delivery(alloc, place + 1)?.as_bytes())?;
        if worker == 3 {
            script.extend_from_slice(CLAIMS.as_bytes())?;
        }
    }
    for _ in 0..300 {
        script.extend_from_slice(b"send 1000\n")?;
    }
    Ok((script, report))
}

#[test]
fn three_hundred_packets_of_the_largest_size(rt: HostRuntime) -> Result<(), Fail> {
    let alloc = rt.alloc();
    let (script, report) = script_and_report(alloc)?;
    let mut words = Vec::new(alloc);
    words.push(String::from_str(alloc, "drive")?)?;
    let mut source = MemSource::new(script, Vec::new(alloc));
    let mut sink = MemSink::new(alloc, Vec::new(alloc));
    let mut bench = Bench::in_memory(alloc)?;
    let status = mix_command(alloc, &words, &mut source, &mut sink, &mut bench);
    assert!(rt; status == Status::Done);
    assert!(rt; sink.bytes() == report.as_slice());
    Ok(())
}
