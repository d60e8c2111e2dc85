// The primitives of a suite: SHA-256 and HMAC, HKDF-Expand, ChaCha20's key stream and the wide block cipher
// LIONESS, with the laboratory suite that is made of them. Hash and cipher are the kit's. Each call gives what
// its standard's function gives, takes no memory and never fails.
#![tactic(auto)]

mod hashing;
mod key_derivation;
mod key_stream;
mod laboratory;
#[cfg(test)]
mod tests;
mod wide_cipher;

pub use hashing::{Hmac, HmacMac, hmac_sha256, sha256};
pub use key_derivation::{LabelKdf, hkdf_expand};
pub use key_stream::{ChaCha, ChaWords, chacha_xor};
pub use laboratory::{LabKem, LabSuite};
pub use wide_cipher::Lioness;
