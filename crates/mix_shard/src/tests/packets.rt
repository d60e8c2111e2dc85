// Packets of one hop in the laboratory suite, made by the rules for making, and not by undoing what a node does: for the
// node whose seed is all zeros, in networks of at most five hops and of bodies of 64 bytes.
use epoch_keys::epoch_pair;
use mix_base::{Kdf, Kem, Mac, Stream, Wide, Words};
use prim_std::{ChaCha, ChaWords, HmacMac, LabKem, LabSuite, LabelKdf, Lioness, sha256};
use std::alloc::Global;
use std::test::Fail;

/// The tag of the packet with the seed 32 bytes 01 for epoch 0, as another program has it.
pub const FIRST_TAG: [u8; 32] =
    *b"\x62\x34\x9c\xb9\x71\xc7\xee\xe7\x87\x2a\xf5\x5d\x5e\x01\xde\x21\xa5\xe0\xf5\x8a\x93\x3f\x2d\xb9\x6d\x90\x42\x8f\xc0\xdf\xe6\xd6";

/// That of the packet with the seed 32 bytes 03 for epoch 9.
pub const NINTH_TAG: [u8; 32] =
    *b"\x18\x9c\x0a\xe4\x15\x9f\x08\x3f\xdf\xd7\xbd\x2f\xa8\xf8\xfc\x89\x9a\xf8\xab\x20\xf8\xa9\x0f\x2d\xc1\xcb\x29\x95\xf5\x58\xfe\x7b";

/// That of the packet with the seed 32 bytes 04 for epoch 10.
pub const TENTH_TAG: [u8; 32] =
    *b"\x97\x9c\xc9\x78\x5a\x74\xa0\x68\x9c\xa3\x54\x47\x08\x11\x27\xd9\x1b\x69\x04\x99\x93\xc0\xa8\x7b\x9a\x32\x15\xe6\x30\x28\x5e\x49";

/// The commands of a last hop: the recipient is 32 bytes 22.
pub fn to_recipient() -> [u8; 72] {
    let mut commands = [0; 72];
    commands[0] = 2;
    commands[1..33].copy_from_slice(&[0x22; 32]);
    commands
}

/// The same behind a delay of this many milliseconds.
pub fn to_recipient_after(delay: u32) -> [u8; 72] {
    let mut commands = [0; 72];
    commands[0] = 0x80;
    commands[1..5].copy_from_slice(&delay.to_be_bytes());
    commands[5] = 2;
    commands[6..38].copy_from_slice(&[0x22; 32]);
    commands
}

/// The commands of a last hop that asks for a reply, with the reply id 16 bytes 44.
pub fn to_maker() -> [u8; 72] {
    let mut commands = to_recipient();
    commands[33] = 3;
    commands[34..50].copy_from_slice(&[0x44; 16]);
    commands
}

/// The commands of a hop before another: its id is 32 bytes 22, and the code of its header 32 bytes 33.
pub fn to_next_hop() -> [u8; 72] {
    let mut commands = [0; 72];
    commands[0] = 1;
    commands[1..33].copy_from_slice(&[0x22; 32]);
    commands[33..65].copy_from_slice(&[0x33; 32]);
    commands
}

/// The payload of a body of 64 bytes 41, without a reply block.
pub fn payload() -> [u8; 940] {
    let mut payload = [0; 940];
    payload[876..].copy_from_slice(&[0x41; 64]);
    payload
}

/// The secret of a packet with this seed for an epoch, and its ciphertext.
fn shared(alloc: Global, seed: &[u8; 32], epoch: u64) -> Result<([u8; 32], [u8; 48]), Fail> {
    let key = epoch_pair::<LabSuite>(alloc, &[0; 32], epoch)?;
    let mut words = ChaWords::new(seed);
    let mut coins = [0; 8];
    for coin in coins.iter_mut() {
        *coin = words.next();
    }
    let mut ciphertext = [0; 48];
    let mut secret = [0; 32];
    LabKem::encap(
        alloc,
        key.pk.as_slice(),
        &coins,
        &mut ciphertext,
        &mut secret,
    )?;
    Ok((secret, ciphertext))
}

/// The packet with this seed for an epoch, with these commands and a body of 64 bytes 41.
pub fn packet(
    alloc: Global,
    seed: &[u8; 32],
    epoch: u64,
    commands: &[u8; 72],
) -> Result<Vec<u8>, Fail> {
    let (secret, ciphertext) = shared(alloc, seed, epoch)?;
    let keys = LabelKdf::expand(&secret);
    let mut routing = [0; 600];
    routing[48..120].copy_from_slice(commands);
    ChaCha::xor(&keys.stream, &mut routing);
    let mut packet = Vec::with_capacity(alloc, 1622)?;
    packet.extend_from_slice(&[0, 0])?;
    packet.extend_from_slice(&ciphertext)?;
    packet.extend_from_slice(&routing)?;
    let code = HmacMac::tag(&keys.mac, &packet);
    packet.extend_from_slice(&code)?;
    let mut payload = payload();
    Lioness::encrypt(&keys.wide, &mut payload);
    packet.extend_from_slice(&payload)?;
    Ok(packet)
}

/// What a packet with this seed to the next hop is there: its slot of zeros and commands is gone, zeros and the end of
/// the key stream are behind, and the payload is bare.
pub fn forwarded(alloc: Global, seed: &[u8; 32]) -> Result<Vec<u8>, Fail> {
    let (secret, _) = shared(alloc, seed, 0)?;
    let mut stream = [0; 720];
    ChaCha::xor(&LabelKdf::expand(&secret).stream, &mut stream);
    let mut packet = Vec::with_capacity(alloc, 1622)?;
    packet.resize(2 + 48 + 480, 0)?;
    packet.extend_from_slice(&stream[600..])?;
    packet.extend_from_slice(&[0x33; 32])?;
    packet.extend_from_slice(&payload())?;
    Ok(packet)
}

// SHA-256 of a packet that another program made.
const FIRST_DIGEST: [u8; 32] =
    *b"\xc3\x5c\xe3\x43\x99\xfd\xab\x42\x8c\xe2\xa4\x2f\x50\x66\xa0\xff\x19\xed\xc9\x97\x66\x7e\xdc\x5c\xd6\xc2\xe5\xd0\x59\x06\x04\x65";

#[test]
fn a_packet_as_another_program_makes_it(rt: HostRuntime) -> Result<(), Fail> {
    let packet = packet(rt.alloc(), &[1; 32], 0, &to_recipient())?;
    assert!(rt; sha256(&packet) == FIRST_DIGEST);
    Ok(())
}
