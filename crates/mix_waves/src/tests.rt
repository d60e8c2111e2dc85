// What no clause says: that nodes, first hops, coins and keys are those of another program, that calls succeed where memory is
// ample, and that a report comes out as meant.
ghost use Rattle.std.specs.Prelude.{◌≡◌, ◌≤◌, false};
ghost use Rattle.lab_text.specs.Settings.{IsConfigInRange};
ghost use Rattle.mix_waves.specs.Network.{sizes_of};
ghost use Rattle.packet_form.specs.Geometry.{IsWithin};

use crate::{
    Message, ShardCount, deliveries, first_disk, first_wave, geometry, message_fates, node_id,
    node_number, node_seed, replies, write_report,
};
use epoch_keys::epoch_pair;
use lab_text::Config;
use mix_base::{Bytes, MemSink};
use packet_form::Geometry;
use prim_std::{LabSuite, sha256};
use sphinx_make::Draw;
use sphinx_unwrap::{Out, unwrap};
use std::alloc::Global;
use std::process::Abort;
use std::test::Fail;

/// The settings of a network with two nodes in each layer, of the laboratory's suite.
fn settings(layers: u8, messages: u32) -> Config
    requires layers { IsWithin 1 5 layers }
    requires messages { messages ≤ 10000 }
    ensures in_range { IsConfigInRange result }
    ensures lab { result.ntru ≡ false }
{
    Config {
        ntru: false,
        body: 64,
        layers,
        width: 2,
        workers: 2,
        shards: 2,
        epoch: 1 << 40,
        grace: 120_000,
        seed: [7; 32],
        messages,
        draw: Draw {
            threshold: 1 << 31,
            unit: 2,
            cap: 20,
        },
    }
}

/// The first so many bytes, and those behind them.
fn parted(bytes: &[u8], count: usize) -> Result<(&[u8], &[u8]), Fail> {
    if bytes.len() < count {
        return Err("the bytes are too few".into());
    }
    Ok(bytes.split_at(count))
}

#[test]
fn nodes_of_another_program(rt: HostRuntime) -> Result<(), Fail> {
    let alloc = rt.alloc();
    let config = settings(3, 40);
    let cases: [(u8, u8, &str); 2] = [
        (
            1,
            0,
            "f9faf9503800e970f31f899633d31e8b56148a4ada35ab26ed5a1ccff49ffe4e",
        ),
        (
            1,
            1,
            "1dc025b36332dab1bc66d505421f01fb0dd5ba663aec4287472e954a805743c1",
        ),
    ];
    for (layer, place, seed) in cases {
        let found = hex::encode(alloc, node_seed(&config, layer, place).as_slice())?;
        assert!(&rt; found.as_str() == seed);
    }
    let id = node_id(2, 1);
    assert!(&rt; id[0] == 2 && id[1] == 1 && id[2] == 0 && id[31] == 0);
    assert!(&rt; node_number(&config, 2, 1) == 5 && first_disk(5) == 80);
    assert!(&rt; geometry(&config).header() == 442);
    Ok(())
}

/// The SHA-256 of what another program computes of messages: of each the id of the first hop, version and ciphertext of the
/// packet and of the block, and behind the block's header the id of its first hop and its own key.
fn sum_of(alloc: Global, geo: &Geometry, messages: &[Message]) -> Result<String, Fail> {
    let mut bytes = Vec::new(alloc);
    for message in messages {
        bytes.extend_from_slice(message.first.as_slice())?;
        bytes.extend_from_slice(parted(message.packet.as_slice(), 50)?.0)?;
        bytes.extend_from_slice(parted(message.block.as_slice(), 50)?.0)?;
        bytes.extend_from_slice(parted(message.block.as_slice(), geo.header())?.1)?;
    }
    Ok(hex::encode(alloc, sha256(&bytes).as_slice())?)
}

#[test]
fn messages_of_another_program(rt: HostRuntime) -> Result<(), Fail> {
    let alloc = rt.alloc();
    let config = settings(3, 40);
    let geo = geometry(&config);
    let wave = first_wave::<LabSuite>(alloc, &config, &geo, 1000, 0)?;
    let wanted = "1dc86a06807fe010e4e17c794a01b64e2e577ca10a7bd4b8682b6204cd360a97";
    assert!(&rt; sum_of(alloc, &geo, &wave)?.as_str() == wanted);
    let config = settings(2, 2);
    let geo = geometry(&config);
    let wave = first_wave::<LabSuite>(alloc, &config, &geo, 1004, 7)?;
    let wanted = "dbf34f26a2345bed0bd24925367a1f6d3aacaca66c4e6d297fad28e4a352a459";
    assert!(&rt; sum_of(alloc, &geo, &wave)?.as_str() == wanted);
    Ok(())
}

/// What the last node of a way finds in a packet that goes to this node first.
fn at_the_end(
    alloc: Global,
    config: &Config,
    geo: &Geometry,
    first: &[u8; 32],
    packet: &[u8],
) -> Result<Out, Fail>
    requires in_range { IsConfigInRange config.now }
    requires lab { config.now.ntru ≡ false }
    requires geometry { geo.now ≡ sizes_of config.now }
{
    let mut id = *first;
    let mut packet = Bytes::of(Vec::from_slice(alloc, packet)?);
    for layer in 0..config.layers {
        let key = epoch_pair::<LabSuite>(alloc, &node_seed(config, layer, id[1]), 7)?;
        let opened = unwrap::<LabSuite>(alloc, geo, key.sk.as_slice(), packet.as_slice())?;
        match opened.out {
            Out::Forward {
                next,
                packet: carried,
            } => {
                id = next;
                packet = carried;
            }
            out => return Ok(out),
        }
    }
    Err("the way has no end".into())
}

/// A copy of a packet with another last byte.
fn changed(alloc: Global, packet: &[u8]) -> Result<Vec<u8>, Fail> {
    let mut bytes = Vec::from_slice(alloc, packet)?;
    if let Some(last) = bytes.last_mut() {
        *last ^= 1;
    }
    Ok(bytes)
}

/// Expects the report on two messages, of which the first was delivered, where these packets came back.
fn expect_report(
    rt: &impl Abort,
    alloc: Global,
    config: &Config,
    delivered: &[bool],
    wave: &[Message],
    local: &[&Out],
    opened: &str,
    fate: &str,
) -> Result<(), Fail>
    requires in_range { IsConfigInRange config.now }
    requires lab { config.now.ntru ≡ false }
{
    let geo = geometry(config);
    let fates = message_fates::<LabSuite>(alloc, config, &geo, delivered, local, wave)?;
    let counts = [ShardCount {
        node: 3,
        shard: 1,
        spent: 4,
        handed: 5,
    }];
    let mut sink = MemSink::new(alloc, Vec::new(alloc));
    assert!(rt; write_report(alloc, &mut sink, &fates, &counts).is_ok());
    let front = "wave 1 sent 2 delivered 1\nmessage 0 delivered\nmessage 1 lost\n";
    let back = "node 3 shard 1 spent 4 handed 5\n";
    let wanted = format!(in alloc; "{front}wave 2 sent 1 opened {opened}\nreply 0 {fate}\n{back}")?;
    assert!(rt; sink.bytes() == wanted.as_bytes());
    Ok(())
}

#[test]
fn there_and_back(rt: HostRuntime) -> Result<(), Fail> {
    let alloc = rt.alloc();
    let config = settings(2, 2);
    let geo = geometry(&config);
    let wave = first_wave::<LabSuite>(alloc, &config, &geo, 1004, 7)?;
    let Some((first, _)) = wave.split_first() else {
        return Err("there is no message".into());
    };
    let arrived = at_the_end(alloc, &config, &geo, &first.first, first.packet.as_slice())?;
    let delivered = deliveries(alloc, &config, &[&arrived])?;
    let answers = replies::<LabSuite>(alloc, &config, &geo, &delivered, &wave)?;
    assert!(&rt; answers.len() == 1);
    let Some((answer, _)) = answers.split_first() else {
        return Err("there is no reply".into());
    };
    let whole = at_the_end(
        alloc,
        &config,
        &geo,
        &answer.first,
        answer.packet.as_slice(),
    )?;
    let broken = changed(alloc, answer.packet.as_slice())?;
    let broken = at_the_end(alloc, &config, &geo, &answer.first, &broken)?;
    expect_report(
        &rt,
        alloc,
        &config,
        &delivered,
        &wave,
        &[&whole],
        "1",
        "opened",
    )?;
    expect_report(
        &rt,
        alloc,
        &config,
        &delivered,
        &wave,
        &[&broken, &whole],
        "1",
        "opened",
    )?;
    expect_report(
        &rt,
        alloc,
        &config,
        &delivered,
        &wave,
        &[&broken],
        "0",
        "damaged",
    )?;
    expect_report(
        &rt,
        alloc,
        &config,
        &delivered,
        &wave,
        &[&arrived],
        "0",
        "lost",
    )
}
