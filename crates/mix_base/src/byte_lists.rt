// Bytes that a type owns and contracts see as a list; the xor of two lists, zeros, and copies of a front.
ghost use Rattle.std.specs.Prelude.{◌≡◌, ℕ, ◌≤◌, List, length, min, drop};
ghost use Rattle.mix_base.specs.ByteLists.{all_zero, xor};
ghost use Rattle.mix_base.specs.Reading.{TakesFront};

use std::marker::Model;

/// A vector of bytes. Contracts see it as the list of these bytes, whatever room the vector has.
#[derive(Drop)]
pub struct Bytes {
    bytes: Vec<u8>,
}

impl Model for Bytes {
    ghost use Rattle.std.specs.Prelude.{ℕ, List};

    ghost Value = { List ℕ };

    ghost view = { λ b. b.bytes.items };
}

impl Bytes {
    /// These bytes. Takes no memory.
    pub fn of(bytes: Vec<u8>) -> Bytes
        ensures { result ≡ bytes.items }
    {
        Bytes { bytes }
    }

    /// The bytes, lent.
    pub fn as_slice(&self) -> &[u8]
        ensures { result.now ≡ self.now }
    {
        self.bytes.as_slice()
    }

    /// The vector that holds the bytes. Takes no memory.
    pub fn into_vec(self) -> Vec<u8>
        ensures { result.items ≡ self }
    {
        let Bytes { bytes } = self;
        bytes
    }
}

/// Xors each byte of `target` with the byte of `other` at its place. Asks equal lengths.
pub fn xor_into(target: &mut [u8], other: &[u8])
    requires { length target.old ≡ length other.now }
    ensures { target.new ≡ xor target.old other.now }
{
    for i in 0..target.len() {
        target[i] ^= other[i];
    }
}

/// Whether each byte is zero.
pub fn is_zero(bytes: &[u8]) -> bool
    ensures { result ≡ all_zero bytes.now }
{
    bytes.iter().all(|byte| *byte == 0)
}

/// Copies as many bytes as the buffer has room for, or all, and answers how many they are. The rest of the buffer stays.
pub fn copy_front(bytes: &[u8], buf: &mut [u8]) -> usize
    ensures count { result ≡ min (length bytes.now) (length buf.old) }
    ensures taken { TakesFront bytes.now (drop result bytes.now) buf.new result }
    ensures rest { drop result buf.new ≡ drop result buf.old }
{
    let count = bytes.len().min(buf.len());
    buf[..count].copy_from_slice(&bytes[..count]);
    count
}
