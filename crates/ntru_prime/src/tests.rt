// A pair, a ciphertext and a secret of an independent program; what is refused; and words that make no pair. Long
// values are compared by their SHA-256.
ghost use Rattle.std.specs.Prelude.{◌≡◌, length};

use super::*;
use crate::drawing::weight_polynomial;
use crate::reading::{small_in, whole_in};
use crate::sealing::seal;
use mix_base::{EncapFault, Kem, ListWords, PairFault, Suite, Words};
use ntru_code::encode_small;
use ntru_ring::weight;
use prim_std::{ChaWords, hmac_sha256, sha256};
use std::alloc::Global;
use std::process::Abort;
use std::test::Fail;

// The bytes are those of the hexadecimal digits.
fn expect_hex(rt: &impl Abort, alloc: Global, bytes: &[u8], want: &str) -> Result<(), Fail> {
    let text = hex::encode(alloc, bytes)?;
    assert_eq!(rt; text.as_str(), want);
    Ok(())
}

// The pair of epoch 0 under a seed of zeros, and what the words of the key 01, .., 01 encapsulate to it.
#[derive(Drop)]
struct Made {
    pk: [u8; 1218],
    sk: [u8; 1600],
    ct: [u8; 1047],
    secret: [u8; 32],
}

fn coins() -> [u32; 761] {
    let mut words = ChaWords::new(&[1; 32]);
    let mut coins = [0; 761];
    for coin in coins.iter_mut() {
        *coin = words.next();
    }
    coins
}

fn make<S: Suite>(alloc: Global) -> Result<Made, Fail>
    requires public_length { 1218 ≡ S.K.PK }
    requires secret_length { 1600 ≡ S.K.SK }
    requires ciphertext_length { 1047 ≡ S.K.CT }
    requires coins_length { 761 ≡ S.K.COINS }
{
    let key = hmac_sha256(&[0; 32], b"mix-epoch\0\0\0\0\0\0\0\0");
    let mut pk = [0; 1218];
    let mut sk = [0; 1600];
    S::K::pair(alloc, &mut ChaWords::new(&key), &mut pk, &mut sk)?;
    let mut ct = [0; 1047];
    let mut secret = [0; 32];
    S::K::encap(alloc, &pk, &coins(), &mut ct, &mut secret)?;
    Ok(Made { pk, sk, ct, secret })
}

fn opens<S: Suite>(alloc: Global, sk: &[u8], ct: &[u8], secret: &mut [u8; 32]) -> Result<bool, Fail>
    requires secret_length { length sk.now ≡ S.K.SK }
    requires ciphertext_length { length ct.now ≡ S.K.CT }
{
    Ok(S::K::decap(alloc, sk, ct, secret)?)
}

#[test]
fn pair_ciphertext_and_secret(rt: HostRuntime) -> Result<(), Fail> {
    let alloc = rt.alloc();
    let Made { pk, sk, ct, secret } = make::<NtruSuite>(alloc)?;
    let want = "91b1a5ddbcd5f2b7b4d14a1816edbeb472bbbbffbe3d2e8294450d705da05fe0";
    expect_hex(&rt, alloc, &sha256(&pk), want)?;
    let want = "329833684978b444d6426351ac6300e0edfa697feb29e929355aae75a084cb9f";
    expect_hex(&rt, alloc, &sha256(&sk), want)?;
    let want = "1a7d9df9a42685f860d613316f673c49d21ba263cf5197f9b004c5c2dd3e0e11";
    expect_hex(&rt, alloc, &sha256(&ct), want)?;
    let want = "1d84bc91952c78a8f475abf4beff73838fdd214df23d9ccba77f4798292ff0c7";
    expect_hex(&rt, alloc, &secret, want)?;
    let mut found = [0; 32];
    assert!(rt; opens::<NtruSuite>(alloc, &sk, &ct, &mut found)?);
    assert_eq!(rt; found, secret);
    Ok(())
}

// The bytes with others from a place on.
fn changed<const N: usize>(bytes: &[u8; N], at: usize, others: &[u8]) -> [u8; N] {
    let mut changed = *bytes;
    for (i, byte) in changed.iter_mut().enumerate() {
        if at <= i && i - at < others.len() {
            *byte = others[i - at];
        }
    }
    changed
}

#[test]
fn changed_keys_and_ciphertexts_are_refused(rt: HostRuntime) -> Result<(), Fail> {
    let alloc = rt.alloc();
    let Made { pk, sk, ct, .. } = make::<NtruSuite>(alloc)?;
    let mut secret = [0; 32];
    let ciphertexts: [(usize, &[u8]); 5] = [
        (0, b"\x85"),
        (31, b"\x10"),
        (32, b"\xfb\x05\0\0"),
        (40, b"\0\0\0\0"),
        (1044, b"\xfd\xf0\xff"),
    ];
    for (at, others) in ciphertexts {
        let ct = changed(&ct, at, others);
        assert!(rt; !opens::<NtruSuite>(alloc, &sk, &ct, &mut secret)?, "{at}");
    }
    let keys: [(usize, &[u8]); 5] = [
        (0, b"\x03"),
        (190, b"\x05"),
        (191, b"\xff"),
        (1598, b"\xef\x11"),
        (382, b"\0\0\0\0\0\0\0\0"),
    ];
    for (at, others) in keys {
        let sk = changed(&sk, at, others);
        assert!(rt; !opens::<NtruSuite>(alloc, &sk, &ct, &mut secret)?, "{at}");
    }
    assert!(rt; is_public_key(alloc, &pk)?);
    let mut other = [0; 1047];
    let pk = changed(&pk, 1216, b"\xef\x11");
    assert!(rt; !is_public_key(alloc, &pk)?);
    assert_eq!(rt;
        NtruKem::encap(alloc, &pk, &coins(), &mut other, &mut secret),
        Err(EncapFault::KeyForm)
    );
    Ok(())
}

// With its first coefficient -1 at a place that 4 divides made 0.
fn lighter(small: &[u8; 191]) -> [u8; 191] {
    let mut lighter = *small;
    for byte in lighter.iter_mut() {
        if *byte % 4 == 0 {
            *byte += 1;
            return lighter;
        }
    }
    lighter
}

// What is made of an r of weight 286 opens, and what is made of one of weight 285 doesn't.
#[test]
fn another_weight_is_refused(rt: HostRuntime) -> Result<(), Fail> {
    let alloc = rt.alloc();
    let Made { pk, sk, .. } = make::<NtruSuite>(alloc)?;
    let h = whole_in(alloc, &pk)?;
    let r = weight_polynomial(alloc, &coins())?;
    let mut small = [0; 191];
    encode_small(&r, &mut small);
    let cases: [([u8; 191], usize, bool); 2] = [(small, 286, true), (lighter(&small), 285, false)];
    for (small, count, opened) in cases {
        let r = small_in(alloc, &small)?;
        assert_eq!(rt; weight(&r), count);
        let mut ct = [0; 1047];
        let mut secret = seal(alloc, &h, &r, &mut ct)?;
        assert_eq!(rt; NtruKem::decap(alloc, &sk, &ct, &mut secret)?, opened);
    }
    Ok(())
}

// Each coefficient of each g is 0, and 0 divides zero.
#[test]
fn words_without_a_pair(rt: HostRuntime) -> Result<(), Fail> {
    let alloc = rt.alloc();
    let list = vec![in alloc; 0x2000_0000]?;
    assert!(rt; list.len() > 0);
    let mut words = ListWords::new(list);
    let mut pk = [0; 1218];
    let mut sk = [0; 1600];
    assert_eq!(rt;
        NtruKem::pair(alloc, &mut words, &mut pk, &mut sk),
        Err(PairFault::NoKey)
    );
    Ok(())
}
