// The commands of one hop, read from the 72 bytes of a slot and written to them. What is written is read as the
// commands that were written, and what is read is spelled by these bytes alone. Neither takes memory.
ghost use Rattle.std.specs.Prelude.{◌≡◌, ◌≢◌, ◌+◌, ◌≤◌, ◌++◌, ◌↔◌, ℕ, List, [], ◌∷◌, length, slice_range, IsTrue, Some, IfSome, IfNone, option_map};
ghost use Rattle.packet_form.specs.Commands.{IsAllowed, HasLengths, delay_at, delay_part, exit_at, exit_part, hop_at, longest_delay, padded, read, recipient_at, spell};
ghost use Rattle.packet_form.specs.declared.commands.Cmds.{Cmds};

use mix_base::is_zero;

/// The longest delay, three hours in milliseconds.
pub const LONGEST_DELAY: u32 = 10_800_000;

/// Where a packet goes from a hop.
#[derive(Clone, Copy, Debug, PartialEq, Eq)]
pub enum Exit {
    /// To the next hop: its id, and the MAC of the header that goes there.
    Hop { id: [u8; 32], mac: [u8; 32] },
    /// To a recipient.
    Recipient { id: [u8; 32] },
    /// To the maker of a reply block, with the id of that block.
    Reply { id: [u8; 32], surb: [u8; 16] },
}

/// The commands of one hop.
#[derive(Clone, Copy, Debug, PartialEq, Eq)]
pub struct Cmds {
    /// For how many milliseconds the hop holds the packet, at most `LONGEST_DELAY`. `Some(0)` and `None` are two
    /// values.
    pub delay: Option<u32>,
    pub exit: Exit,
}

impl Cmds {
    /// Whether these commands may be written: their delay, where there is one, is at most `LONGEST_DELAY`.
    pub fn is_allowed(&self) -> bool
        ensures { IsTrue result ↔ IsAllowed self.now }
    {
        match self.delay {
            Some(delay) => delay <= LONGEST_DELAY,
            None => true,
        }
    }
}

/// The commands that the bytes of a slot spell. `None` comes exactly where they spell none.
pub fn read_cmds(bytes: &[u8; 72]) -> Option<Cmds>
    ensures exact { result ≡ read bytes.now }
    // These bytes spell what is read.
    ensures spelled { IfSome result (λ cmds. IsAllowed cmds × (bytes.now ≡ spell cmds)) }
    // Where nothing is read, these bytes spell no commands.
    ensures none { IfNone result
        ((cmds : Cmds) → IsAllowed cmds → HasLengths cmds.exit → bytes.now ≢ spell cmds) }
{
    read_parts(bytes)
}

/// The one spelling of commands. Asks a delay of at most `LONGEST_DELAY`, where there is one: `Cmds::is_allowed`.
#[tactic(auto, unfolding(crate::specs::Commands::spell))]
pub fn write_cmds(cmds: &Cmds) -> [u8; 72]
    requires { IsAllowed cmds.now }
    ensures value { result ≡ spell cmds.now }
    // What is written is read as these commands.
    ensures read_back { read result ≡ Some cmds.now }
{
    let mut bytes = [0; 72];
    let behind = write_delay(&mut bytes, cmds.delay);
    write_exit(&mut bytes, behind, &cmds.exit);
    bytes
}

// The parts one after the other, and zeros behind them.
#[tactic(auto, unfolding(crate::specs::Commands::read))]
fn read_parts(bytes: &[u8; 72]) -> Option<Cmds>
    ensures { result ≡ read bytes.now }
{
    let (delay, behind) = split_delay(bytes)?;
    let (exit, rest) = split_exit(behind)?;
    if is_zero(rest) {
        Some(Cmds { delay, exit })
    } else {
        None
    }
}

// A copy of the 32 bytes from a place on.
fn id_at(bytes: &[u8], at: usize) -> [u8; 32]
    requires { at + 32 ≤ length bytes.now }
    ensures { result ≡ slice_range bytes.now at (at + 32) }
{
    let mut id = [0; 32];
    id.copy_from_slice(&bytes[at..at + 32]);
    id
}

// The delay at the front, or none, and the bytes behind it; `None` for a delay that is too long.
#[tactic(auto, unfolding(crate::specs::Commands::delay_at))]
fn split_delay(bytes: &[u8; 72]) -> Option<(Option<u32>, &[u8])>
    ensures exact { option_map (λ part. (part.0, part.1.now)) result ≡ delay_at bytes.now }
    ensures length { IfSome result (λ part. 67 ≤ length part.1.now) }
{
    if bytes[0] != 0x80 {
        return Some((None, bytes));
    }
    let mut digits = [0; 4];
    digits.copy_from_slice(&bytes[1..5]);
    let delay = u32::from_be_bytes(digits);
    if delay > LONGEST_DELAY {
        return None;
    }
    let (_, behind) = bytes.split_at(5);
    Some((Some(delay), behind))
}

// The exit at the front, and the bytes behind it; `None` where the first byte begins none.
#[tactic(auto, unfolding(crate::specs::Commands::exit_at))]
fn split_exit(bytes: &[u8]) -> Option<(Exit, &[u8])>
    requires { 67 ≤ length bytes.now }
    ensures { option_map (λ part. (part.0, part.1.now)) result ≡ exit_at bytes.now }
{
    match bytes[0] {
        1 => Some(split_hop(bytes)),
        2 => Some(split_recipient(bytes)),
        _ => None,
    }
}

// A next hop, and the bytes behind it.
fn split_hop(bytes: &[u8]) -> (Exit, &[u8])
    requires { 67 ≤ length bytes.now }
    ensures { (result.0, result.1.now) ≡ hop_at bytes.now }
{
    let id = id_at(bytes, 1);
    let mac = id_at(bytes, 33);
    let (_, behind) = bytes.split_at(65);
    (Exit::Hop { id, mac }, behind)
}

// A recipient, or a reply, and the bytes behind it.
fn split_recipient(bytes: &[u8]) -> (Exit, &[u8])
    requires { 67 ≤ length bytes.now }
    ensures { (result.0, result.1.now) ≡ recipient_at bytes.now }
{
    let id = id_at(bytes, 1);
    if bytes[33] == 3 {
        let mut surb = [0; 16];
        surb.copy_from_slice(&bytes[34..50]);
        let (_, behind) = bytes.split_at(50);
        (Exit::Reply { id, surb }, behind)
    } else {
        let (_, behind) = bytes.split_at(33);
        (Exit::Recipient { id }, behind)
    }
}

// Writes a field behind those that are written.
fn put(bytes: &mut [u8; 72], at: usize, field: &[u8])
    requires { at + length field.now ≤ 72 }
    ensures { (written : List ℕ) → length written ≡ at → bytes.old ≡ padded written →
        bytes.new ≡ padded (written ++ field.now) }
{
    bytes[at..at + field.len()].copy_from_slice(field);
}

// Writes the part of the delay to zeros, and says how long it is.
fn write_delay(bytes: &mut [u8; 72], delay: Option<u32>) -> usize
    requires { bytes.old ≡ padded [] }
    ensures value { bytes.new ≡ padded (delay_part delay) }
    ensures length { result ≡ length (delay_part delay) }
    ensures most { result ≤ 5 }
{
    match delay {
        None => 0,
        Some(delay) => {
            put(bytes, 0, &[0x80]);
            put(bytes, 1, &delay.to_be_bytes());
            5
        }
    }
}

// Writes the part of the exit behind what is written.
fn write_exit(bytes: &mut [u8; 72], at: usize, exit: &Exit)
    requires { at ≤ 5 }
    ensures value { (written : List ℕ) → length written ≡ at → bytes.old ≡ padded written →
        bytes.new ≡ padded (written ++ exit_part exit.now) }
    ensures lengths { HasLengths exit.now }
{
    match exit {
        Exit::Hop { id, mac } => {
            put(bytes, at, &[1]);
            put(bytes, at + 1, id);
            put(bytes, at + 33, mac);
        }
        Exit::Recipient { id } => {
            put(bytes, at, &[2]);
            put(bytes, at + 1, id);
        }
        Exit::Reply { id, surb } => {
            put(bytes, at, &[2]);
            put(bytes, at + 1, id);
            put(bytes, at + 33, &[3]);
            put(bytes, at + 34, surb);
        }
    }
}
