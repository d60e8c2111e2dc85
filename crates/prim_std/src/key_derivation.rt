// HKDF-Expand (RFC 5869) over HMAC-SHA-256, and the keys of a hop that it derives from the hop's secret.
ghost use Rattle.std.specs.Prelude.{◌≡◌, ℕ, ◌+◌, ◌≤◌, List, [], ◌∷◌, ◌++◌, length, take, slice_range};
ghost use Rattle.prim_std.specs.Primitives.{hmac, hkdf_expand, hop_keys};

use crate::Hmac;
use mix_base::{HopKeys, Kdf};

// What a hop's keys are derived for.
const LABEL: &[u8; 17] = b"kem-sphinx-mix-v0";

/// Fills the output with HKDF-Expand's bytes for a pseudorandom key and an info. Asks at most 8,160 bytes of
/// output, which is 255 blocks.
pub fn hkdf_expand(prk: &[u8], info: &[u8], out: &mut [u8])
    requires { length out.old ≤ 8160 }
    ensures { out.new ≡ hkdf_expand prk.now info.now (length out.old) }
{
    let count = out.len().div_ceil(32);
    let mut block = [0; 32];
    let mut held = 0;
    'filling: for i in 0..count {
        block = next_block(prk, &block[..held], info, (i + 1) as u8);
        held = 32;
        put(out, 32 * i, &block);
    }
}

// The block behind `previous`, with this number.
fn next_block(prk: &[u8], previous: &[u8], info: &[u8], number: u8) -> [u8; 32]
    ensures { result ≡ hmac prk.now (previous.now ++ info.now ++ number ∷ []) }
{
    let mut code = Hmac::new(prk);
    code.add(previous);
    code.add(info);
    code.add(&[number]);
    code.finish()
}

// Writes the block at a place, so much of it as fits.
fn put(out: &mut [u8], at: usize, block: &[u8; 32])
    requires { at ≤ length out.old }
    ensures { take (at + 32) out.new ≡ take (length out.old) (take at out.old ++ block.now) }
{
    let (_, rest) = out.split_at_mut(at);
    let count = rest.len().min(32);
    rest[..count].copy_from_slice(&block[..count]);
}

/// HKDF-Expand for the label `kem-sphinx-mix-v0`, as the key derivation of a suite.
#[derive(Drop)]
pub struct LabelKdf;

impl Kdf for LabelKdf {
    ghost keys = { hop_keys };

    #[tactic(auto, unfolding(crate::specs::Primitives::hop_keys))]
    fn expand(secret: &[u8; 32]) -> HopKeys {
        let mut bytes = [0; 192];
        hkdf_expand(secret, LABEL, &mut bytes);
        HopKeys {
            mac: part(&bytes, 0),
            stream: part(&bytes, 32),
            wide: part(&bytes, 64),
        }
    }
}

// The bytes from a place on, in the number that the caller wants.
fn part<const N: usize>(bytes: &[u8], at: usize) -> [u8; N]
    requires { at + N ≤ length bytes.now }
    ensures { result ≡ slice_range bytes.now at (at + N) }
{
    let mut part = [0; N];
    part.copy_from_slice(&bytes[at..at + N]);
    part
}
