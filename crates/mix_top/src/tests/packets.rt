// Packets of one hop in the laboratory suite, for up to five hops. They are made by the rules for making, and not by
// undoing what a node does.
use mix_base::{Kdf, Kem, Mac, Stream, Wide, Words};
use prim_std::{ChaCha, ChaWords, HmacMac, LabKem, LabelKdf, Lioness, hmac_sha256, sha256};
use std::alloc::{AllocError, Global};
use std::test::Fail;

/// The public key of an epoch at the node whose seed is all zeros.
fn public_key(alloc: Global, epoch: u64) -> [u8; 32] {
    let mut label = [0; 17];
    label[..9].copy_from_slice(b"mix-epoch");
    label[9..].copy_from_slice(&epoch.to_be_bytes());
    let mut words = ChaWords::new(&hmac_sha256(&[0; 32], &label));
    let mut public = [0; 32];
    let mut secret = [0; 32];
    let _ = LabKem::pair(alloc, &mut words, &mut public, &mut secret);
    public
}

/// The coins of a packet with this seed.
fn coins(seed: &[u8; 32]) -> [u32; 8] {
    let mut words = ChaWords::new(seed);
    let mut coins = [0; 8];
    for coin in coins.iter_mut() {
        *coin = words.next();
    }
    coins
}

/// The commands of a last hop: the recipient is 32 bytes 22.
pub fn to_recipient() -> [u8; 72] {
    let mut commands = [0; 72];
    commands[0] = 2;
    commands[1..33].copy_from_slice(&[0x22; 32]);
    commands
}

/// The same behind a delay of this many milliseconds.
pub fn to_recipient_after(delay: u32) -> [u8; 72] {
    let mut commands = [0; 72];
    commands[0] = 0x80;
    commands[1..5].copy_from_slice(&delay.to_be_bytes());
    commands[5] = 2;
    commands[6..38].copy_from_slice(&[0x22; 32]);
    commands
}

/// The commands of a last hop that asks for a reply: to the recipient, with the reply id 16 bytes 44.
pub fn to_maker() -> [u8; 72] {
    let mut commands = to_recipient();
    commands[33] = 3;
    commands[34..50].copy_from_slice(&[0x44; 16]);
    commands
}

/// The commands of a hop before another: its id is 32 bytes 22, and the code of its header 32 bytes 33.
pub fn to_next_hop() -> [u8; 72] {
    let mut commands = [0; 72];
    commands[0] = 1;
    commands[1..33].copy_from_slice(&[0x22; 32]);
    commands[33..65].copy_from_slice(&[0x33; 32]);
    commands
}

/// Commands with a byte behind the last.
pub fn to_recipient_and_more() -> [u8; 72] {
    let mut commands = to_recipient();
    commands[71] = 1;
    commands
}

/// The payload of a body of 64 bytes 41.
pub fn payload() -> [u8; 940] {
    let mut payload = [0; 940];
    payload[876..].copy_from_slice(&[0x41; 64]);
    payload
}

/// The secret of a packet with this seed for that node in an epoch, and its ciphertext.
fn shared(alloc: Global, seed: &[u8; 32], epoch: u64) -> ([u8; 32], [u8; 48]) {
    let mut ciphertext = [0; 48];
    let mut secret = [0; 32];
    let public = public_key(alloc, epoch);
    let _ = LabKem::encap(alloc, &public, &coins(seed), &mut ciphertext, &mut secret);
    (secret, ciphertext)
}

/// The packet with this seed for that node in epoch 0, with these commands and a body of 64 bytes 41.
pub fn packet(alloc: Global, seed: &[u8; 32], commands: &[u8; 72]) -> Result<Vec<u8>, AllocError> {
    packet_in(alloc, seed, 0, commands, &[0x41; 64])
}

/// The packet with this seed for that node in an epoch, with these commands and this body.
pub fn packet_in(
    alloc: Global,
    seed: &[u8; 32],
    epoch: u64,
    commands: &[u8; 72],
    body: &[u8],
) -> Result<Vec<u8>, AllocError> {
    let (secret, ciphertext) = shared(alloc, seed, epoch);
    let keys = LabelKdf::expand(&secret);
    let mut routing = [0; 600];
    routing[48..120].copy_from_slice(commands);
    ChaCha::xor(&keys.stream, &mut routing);
    let mut packet = Vec::new(alloc);
    packet.extend_from_slice(&[0, 0])?;
    packet.extend_from_slice(&ciphertext)?;
    packet.extend_from_slice(&routing)?;
    let code = HmacMac::tag(&keys.mac, &packet);
    packet.extend_from_slice(&code)?;
    let mut payload = vec![in alloc; 0; 876]?;
    payload.extend_from_slice(body)?;
    Lioness::encrypt(&keys.wide, &mut payload);
    packet.extend_from_slice(&payload)?;
    Ok(packet)
}

/// The replay tag of the packets with this seed for an epoch.
pub fn tag(alloc: Global, seed: &[u8; 32], epoch: u64) -> [u8; 32] {
    let (_, ciphertext) = shared(alloc, seed, epoch);
    sha256(&ciphertext)
}

/// What a packet with this seed to the next hop is there: its slot of zeros and commands is gone, zeros and the end
/// of the key stream are behind, and the payload is bare.
pub fn forwarded(alloc: Global, seed: &[u8; 32]) -> Result<Vec<u8>, AllocError> {
    let (secret, _) = shared(alloc, seed, 0);
    let mut stream = [0; 720];
    ChaCha::xor(&LabelKdf::expand(&secret).stream, &mut stream);
    let mut packet = Vec::with_capacity(alloc, 1622)?;
    packet.resize(2 + 48 + 480, 0)?;
    packet.extend_from_slice(&stream[600..])?;
    packet.extend_from_slice(&[0x33; 32])?;
    packet.extend_from_slice(&payload())?;
    Ok(packet)
}

// The digest is that of a packet that another program made.
#[test]
fn a_packet_as_another_program_makes_it(rt: HostRuntime) -> Result<(), Fail> {
    let alloc = rt.alloc();
    let packet = packet(alloc, &[1; 32], &to_recipient())?;
    let digest = hex::encode(alloc, &sha256(&packet))?;
    assert_eq!(rt;
        digest.as_str(),
        "c35ce34399fdab428ce2a42f5066a0ff19edc997667edc5cd6c2e5d059060465"
    );
    Ok(())
}
