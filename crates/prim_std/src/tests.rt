// Vectors of the standards, and of other programs where a standard has none. Each call of a suite is made once
// through its bound.
ghost use Rattle.std.specs.Prelude.{◌≡◌, ◌<◌, length};

use super::*;
use mix_base::{HopKeys, Kdf, Kem, ListWords, Mac, Stream, Suite, Wide, Words};
use std::alloc::Global;
use std::process::Abort;
use std::test::Fail;

// The bytes are those of the hexadecimal digits.
fn expect_hex(rt: &impl Abort, alloc: Global, bytes: &[u8], want: &str) -> Result<(), Fail> {
    let text = hex::encode(alloc, bytes)?;
    assert_eq!(rt; text.as_str(), want);
    Ok(())
}

// The bytes from `first` on.
fn counting<const N: usize>(first: u8) -> [u8; N] {
    let mut bytes = [first; N];
    let mut next = first;
    for byte in bytes.iter_mut() {
        *byte = next;
        next = next.wrapping_add(1);
    }
    bytes
}

// One byte, again and again.
fn same<const N: usize>(byte: u8) -> [u8; N] {
    [byte; N]
}

// The code is the one that is wanted, of the message whole and in pieces.
fn expect_code(
    rt: &impl Abort,
    alloc: Global,
    key: &[u8],
    message: &[u8],
    want: &str,
) -> Result<(), Fail> {
    expect_hex(rt, alloc, &hmac_sha256(key, message), want)?;
    let mut code = Hmac::new(key);
    for piece in message.chunks(7) {
        code.add(piece);
    }
    expect_hex(rt, alloc, &code.finish(), want)
}

// RFC 4231, test cases 1, 2, 6 and 7.
#[test]
fn hash_and_code(rt: HostRuntime) -> Result<(), Fail> {
    let alloc = rt.alloc();
    expect_hex(
        &rt,
        alloc,
        &sha256(b"abc"),
        "ba7816bf8f01cfea414140de5dae2223b00361a396177a9cb410ff61f20015ad",
    )?;
    let long = same::<131>(0xaa);
    expect_code(
        &rt,
        alloc,
        &same::<20>(0x0b),
        b"Hi There",
        "b0344c61d8db38535ca8afceaf0bf12b881dc200c9833da726e9376c2e32cff7",
    )?;
    expect_code(
        &rt,
        alloc,
        b"Jefe",
        b"what do ya want for nothing?",
        "5bdcc146bf60754e6a042426089575c75a003f089d2739839dec58b964ec3843",
    )?;
    expect_code(
        &rt,
        alloc,
        &long,
        b"Test Using Larger Than Block-Size Key - Hash Key First",
        "60e431591ee0b67f0d8a26aacbf5b77f8e0bc6213728c5140546040f0ee37f54",
    )?;
    expect_code(
        &rt,
        alloc,
        &long,
        "This is a test using a larger than block-size key and a larger than block-size data. The key needs to be hashed before being used by the HMAC algorithm.".as_bytes(),
        "9b09ffa71b942fcb27635fbcd5b0e944bfdc63644f0713938a7f51535c3a35e2",
    )
}

// The pseudorandom keys of RFC 5869, test cases 1, 2 and 3.
fn first_key() -> &'static [u8] {
    b"\x07\x77\x09\x36\x2c\x2e\x32\xdf\x0d\xdc\x3f\x0d\xc4\x7b\xba\x63\x90\xb6\xc7\x3b\xb5\x0f\x9c\x31\x22\xec\x84\x4a\xd7\xc2\xb3\xe5"
}

fn second_key() -> &'static [u8] {
    b"\x06\xa6\xb8\x8c\x58\x53\x36\x1a\x06\x10\x4c\x9c\xeb\x35\xb4\x5c\xef\x76\x00\x14\x90\x46\x71\x01\x4a\x19\x3f\x40\xc1\x5f\xc2\x44"
}

fn third_key() -> &'static [u8] {
    b"\x19\xef\x24\xa3\x2c\x71\x7b\x16\x7f\x33\xa9\x1d\x6f\x64\x8b\xdf\x96\x59\x67\x76\xaf\xdb\x63\x77\xac\x43\x4c\x1c\x29\x3c\xcb\x04"
}

#[test]
fn derived_bytes(rt: HostRuntime) -> Result<(), Fail> {
    let alloc = rt.alloc();
    let mut two_blocks = same::<42>(0);
    hkdf_expand(first_key(), &counting::<10>(0xf0), &mut two_blocks);
    expect_hex(
        &rt,
        alloc,
        &two_blocks,
        "3cb25f25faacd57a90434f64d0362f2a2d2d0a90cf1a5a4c5db02d56ecc4c5bf34007208d5b887185865",
    )?;
    hkdf_expand(third_key(), b"", &mut two_blocks);
    expect_hex(
        &rt,
        alloc,
        &two_blocks,
        "8da4e775a563c18f715f802a063c5a31b8a11f5c5ee1879ec3454e5f3c738d2d9d201395faa4b61a96c8",
    )?;
    let mut three_blocks = same::<82>(0);
    hkdf_expand(second_key(), &counting::<80>(0xb0), &mut three_blocks);
    expect_hex(
        &rt,
        alloc,
        &three_blocks,
        "b11e398dc80327a1c8e7f78c596a49344f012eda2d4efad8a050cc4c19afa97c59045a99cac7827271cb41c65e590e09da3275600c2f09b8367793a9aca3db71cc30c58179ec3e87c14c01d5c1f3434f1d87",
    )
}

// RFC 8439, appendix A.1, test vectors 1 and 2, and a stream that ends within a word.
#[test]
fn key_stream_by_bytes_and_words(rt: HostRuntime) -> Result<(), Fail> {
    let alloc = rt.alloc();
    let zeros = same::<32>(0);
    let mut two_blocks = same::<128>(0);
    chacha_xor(&zeros, &mut two_blocks);
    expect_hex(
        &rt,
        alloc,
        &two_blocks,
        "76b8e0ada0f13d90405d6ae55386bd28bdd219b8a08ded1aa836efcc8b770dc7da41597c5157488d7724e03fb8d84a376a43b8f41518a11cc387b669b2ee65869f07e7be5551387a98ba977c732d080dcb0f29a048e3656912c6533e32ee7aed29b721769ce64e43d57133b074d839d531ed1f28510afb45ace10a1f4b794d6f",
    )?;
    let mut cut_in_a_word = same::<70>(0);
    chacha_xor(&counting::<32>(0), &mut cut_in_a_word);
    expect_hex(
        &rt,
        alloc,
        &cut_in_a_word,
        "39fd2b7dd9c5196a8dbd0377b8dc4a498a35d86fbcde6accb2cc7d4cd8ea24922b23cce7a26023ab3f0eef693ac87f64258235eab1f7a32dc22762a0485b410c18b84231ade6",
    )?;
    let mut words = ChaWords::new(&zeros);
    assert_eq!(rt; words.next(), 0xade0b876);
    assert_eq!(rt; words.next(), 0x903df1a0);
    Ok(())
}

// A pair, what it encapsulates, and whether that opens.
fn sent_and_opened<S: Suite>(
    alloc: Global,
    keys: (&mut [u8], &mut [u8]),
    ct: &mut [u8],
    sent: &mut [u8; 32],
    opened: &mut [u8; 32],
) -> Result<bool, Fail>
    requires public_length { length keys.0.now ≡ S.K.PK }
    requires secret_length { length keys.1.now ≡ S.K.SK }
    requires ciphertext_length { length ct.old ≡ S.K.CT }
    requires coins_length { 8 ≡ S.K.COINS }
{
    let (pk, sk) = keys;
    let mut words = ListWords::new(Vec::from_slice(alloc, &counting_words(0x01020304))?);
    S::K::pair(alloc, &mut words, pk, sk)?;
    S::K::encap(alloc, pk, &counting_words(0xf1e2d3c4), ct, sent)?;
    Ok(S::K::decap(alloc, sk, ct, opened)?)
}

// Eight words from `first` on.
fn counting_words(first: u32) -> [u32; 8] {
    let mut words = [first; 8];
    let mut next = first;
    for word in words.iter_mut() {
        *word = next;
        next = next.wrapping_add(1);
    }
    words
}

#[test]
fn laboratory_mechanism(rt: HostRuntime) -> Result<(), Fail> {
    let alloc = rt.alloc();
    let mut pk = same::<32>(0);
    let mut sk = same::<32>(0);
    let mut ct = same::<48>(0);
    let mut sent = same::<32>(0);
    let mut opened = same::<32>(0);
    let found = sent_and_opened::<LabSuite>(
        alloc,
        (&mut pk, &mut sk),
        &mut ct,
        &mut sent,
        &mut opened,
    )?;
    assert!(rt; found);
    expect_hex(
        &rt,
        alloc,
        &pk,
        "0403020105030201060302010703020108030201090302010a0302010b030201",
    )?;
    expect_hex(
        &rt,
        alloc,
        &ct,
        "c4d3e2f1c5d3e2f1c6d3e2f1c7d3e2f1c8d3e2f1c9d3e2f1cad3e2f1cbd3e2f1208616d87600aa7fbd8cd285a3e41975",
    )?;
    expect_hex(
        &rt,
        alloc,
        &sent,
        "62f452af154378a5c97378aced16a6b6ab777ab78bdb615e8b0a71d97b02a6d7",
    )?;
    expect_hex(
        &rt,
        alloc,
        &opened,
        "62f452af154378a5c97378aced16a6b6ab777ab78bdb615e8b0a71d97b02a6d7",
    )?;
    ct[47] ^= 1;
    let found = LabKem::decap(alloc, &sk, &ct, &mut opened)?;
    assert!(rt; !found);
    Ok(())
}

// The code and the keys of a suite, with a buffer that is xored and a block that is encrypted.
fn parts_of<S: Suite>(secret: &[u8; 32], buf: &mut [u8], block: &mut [u8]) -> ([u8; 32], HopKeys)
    requires { 32 < length block.old }
{
    S::C::xor(secret, buf);
    S::W::encrypt(&counting::<128>(0), block);
    (S::M::tag(secret, b"Hi There"), S::D::expand(secret))
}

// The block decrypted by the suite's cipher.
fn decrypted_by<S: Suite>(key: &[u8; 128], block: &mut [u8])
    requires { 32 < length block.old }
{
    S::W::decrypt(key, block);
}

#[test]
fn laboratory_parts(rt: HostRuntime) -> Result<(), Fail> {
    let alloc = rt.alloc();
    let mut buf = same::<8>(0);
    let mut block = counting::<70>(0);
    let (code, keys) = parts_of::<LabSuite>(&same::<32>(0x0b), &mut buf, &mut block);
    expect_hex(
        &rt,
        alloc,
        &code,
        "198a607eb44bfbc69903a0f1cf2bbdc5ba0aa3f3d9ae3c1c7a3b1696a0b68cf7",
    )?;
    expect_hex(&rt, alloc, &buf, "6f57e9cc0e4d190d")?;
    expect_hex(
        &rt,
        alloc,
        &keys.mac,
        "19351f4105d37af5ff054ac39e76f287584b4ed014c7f2a160d134a941ca7f54",
    )?;
    expect_hex(
        &rt,
        alloc,
        &keys.stream,
        "424e8b940eeaf506be43df23227cd4cb522a9c62d1a04fcdea64949fbf5d59e7",
    )?;
    expect_hex(
        &rt,
        alloc,
        &keys.wide,
        "a77e3c4a2bb181f6c3f493a2e73ad69a8a06f355f369dce6f940c14aca056d0e0177b8bde93f4ae477851c44a5d5f43f2bbf8de1a99529e6a1b9721248db80eaf04b999135025e725c8080322d0b873200787c61eed955e57389760dca753884c3953dc400fc613913406a615fd09bcbb48a97b670c8e57c849fa7c591033f5a",
    )?;
    expect_hex(
        &rt,
        alloc,
        &block,
        "872d42b51befea0c6de45304e386fe6ee8cb122999cb938c407489312bdf0ed7bd292edfb62bb9ddebe417e96d7239482f5803f291ac8fe52f66d6572bae37eca250973b6ffb",
    )?;
    decrypted_by::<LabSuite>(&counting::<128>(0), &mut block);
    expect_hex(
        &rt,
        alloc,
        &block,
        "000102030405060708090a0b0c0d0e0f101112131415161718191a1b1c1d1e1f202122232425262728292a2b2c2d2e2f303132333435363738393a3b3c3d3e3f404142434445",
    )
}
