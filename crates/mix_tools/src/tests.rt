// What no clause says: that the texts are those of another program for the same requests, that calls succeed where
// memory is ample, and that a failing source or sink is named.
use crate::tool;
use epoch_keys::epoch_pair;
use lab_text::{LineReader, Status, next_word, one_word, read_32};
use mix_base::{Bytes, Kem, MemSink, MemSource};
use ntru_prime::{NtruKem, NtruSuite};
use packet_form::Geometry;
use prim_std::{LabKem, LabSuite, sha256};
use sphinx_unwrap::{Out, Refused, UnwrapFault, unwrap};
use std::alloc::{AllocError, Global};
use std::process::Abort;
use std::test::Fail;

/// What a capital letter of a request stands for: S and T seeds, I and J ids of hops, K and L their keys, R a
/// recipient, B a body, Y another, U the id of a reply, Z a seed of zeros.
fn meant(letter: u8) -> &'static str {
    match letter {
        b'S' => "0101010101010101010101010101010101010101010101010101010101010101",
        b'T' => "792638477b7c777db6cb28465f5fae8280965a1e685b713ca2acb2ec9d823b76",
        b'I' => "1111111111111111111111111111111111111111111111111111111111111111",
        b'J' => "a0d72ac1482fa07db627abf7b1fe33b7d46ea9cc633d3b290258b81fc846d8a0",
        b'K' => "920d9f639d8390f5f6d811d4c99d61b6b772d759812c630090e7decc3a536bfa",
        b'L' => "3d2973e540cbcf0c57654dbd4e2fd9517738db92997f4585ef674e3ae91891eb",
        b'R' => "2222222222222222222222222222222222222222222222222222222222222222",
        b'B' => {
            "41414141414141414141414141414141414141414141414141414141414141414141414141414141414141414141414141414141414141414141414141414141"
        }
        b'Y' => "1b9003e33134a5f3289f7eb17f5c66fe",
        b'U' => "ad1695ad97a08f1ab473b5c628a9ab5a",
        _ => "0000000000000000000000000000000000000000000000000000000000000000",
    }
}

/// The text, with what is meant in place of each capital letter.
fn filled(alloc: Global, text: &str) -> Result<Vec<u8>, AllocError> {
    filled_with(alloc, text, b"")
}

/// The same, with a key in place of each N.
fn filled_with(alloc: Global, text: &str, key: &[u8]) -> Result<Vec<u8>, AllocError> {
    let mut bytes = Vec::new(alloc);
    for byte in text.as_bytes() {
        if *byte == b'N' {
            bytes.extend_from_slice(key)?;
        } else if byte.is_ascii_uppercase() {
            bytes.extend_from_slice(meant(*byte).as_bytes())?;
        } else {
            bytes.push(*byte)?;
        }
    }
    Ok(bytes)
}

/// The words of a command line, with what is meant.
fn words(alloc: Global, line: &[&str]) -> Result<Vec<String>, Fail> {
    let mut words = Vec::new(alloc);
    for word in line {
        words.push(String::from_utf8(filled(alloc, word)?)?)?;
    }
    Ok(words)
}

/// A command over an input, with the calls of source and sink that fail: its answer and what was given.
fn run(
    alloc: Global,
    line: &[&str],
    input: Vec<u8>,
    reads: &[u64],
    writes: &[u64],
) -> Result<(Option<Status>, MemSink), Fail> {
    let words = words(alloc, line)?;
    let mut source = MemSource::new(input, Vec::from_slice(alloc, reads)?);
    let mut sink = MemSink::new(alloc, Vec::from_slice(alloc, writes)?);
    let answer = tool(alloc, &words, &mut source, &mut sink);
    Ok((answer, sink))
}

/// The SHA-256 of a text.
fn sum(alloc: Global, text: &[u8]) -> Result<String, AllocError> {
    hex::encode(alloc, sha256(text).as_slice())
}

/// A request to `make`, and the line at which it stops, or the SHA-256 of the text that another program writes.
type Case = (&'static str, Result<&'static str, u64>);

fn expect_texts(rt: &impl Abort, alloc: Global, cases: &[Case]) -> Result<(), Fail> {
    for (request, wanted) in cases {
        let (answer, sink) = run(alloc, &["make"], filled(alloc, request)?, &[], &[])?;
        match wanted {
            Ok(wanted) => {
                assert!(rt; answer == Some(Status::Done), "{request}");
                assert!(rt; sum(alloc, sink.bytes())?.as_str() == *wanted, "{request}");
            }
            Err(line) => {
                assert!(rt; answer == Some(Status::Line { line: *line }), "{request}");
                assert!(rt; sink.bytes().is_empty(), "{request}");
            }
        }
    }
    Ok(())
}

#[test]
fn keys_of_epochs(rt: HostRuntime) -> Result<(), Fail> {
    let alloc = rt.alloc();
    let cases: [(&[&str], Option<&str>); 8] = [
        (&["keys", "lab", "Z", "0"], Some("key 0 K\n")),
        (
            &["keys", "lab", "Z", "0009"],
            Some("key 9 6a1e8d0d2b1c4eaf1fa3d7faa7425238ed9d06514bbfe5883e3c407f3464bbf4\n"),
        ),
        (
            &["keys", "lab", "Z", "1152921504606846975"],
            Some(
                "key 1152921504606846975 f9ed77993428506779427c616720c3bdbb4839e6671ea8baff070eff6ff682b4\n",
            ),
        ),
        (&["keys", "lab", "Z", "1152921504606846976"], None),
        (&["keys", "lab", "Z"], None),
        (&["keys", "lab", "000", "0"], None),
        (&["keys", "x", "Z", "0"], None),
        (&["make", "now"], None),
    ];
    for (line, wanted) in cases {
        let (answer, sink) = run(alloc, line, Vec::new(alloc), &[], &[])?;
        match wanted {
            Some(text) => {
                assert!(rt; answer == Some(Status::Done));
                assert!(rt; sink.bytes() == filled(alloc, text)?.as_slice());
            }
            None => assert!(rt; answer.is_none() && sink.bytes().is_empty()),
        }
    }
    Ok(())
}

#[test]
fn packets_of_requests(rt: HostRuntime) -> Result<(), Fail> {
    let alloc = rt.alloc();
    expect_texts(
        &rt,
        alloc,
        &[
            (
                "packet lab 5 64 S\nhop I K -\nto R B\n",
                Ok("814e587abe2327bef3a8c753016c73134767664e0b6ce8b618a68d82762ffece"),
            ),
            (
                "packet lab 5 64 S\nhop I K 500\nto R B\n",
                Ok("f4457340ae48bff9e1f63d3a11afd13514ca40b3a2fb441854f207a81d7839a8"),
            ),
            (
                "packet lab 5 64 S\ndraw 2147483648 100 1000\nhop I K draw\nhop I K draw\nhop I K draw\nhop I K draw\nhop I K draw\nto R B\n",
                Ok("51137aa644583f5b85fe6bd293cf28f25543db1ef4ebdf4065356ad8b1f7851e"),
            ),
            (
                "packet lab 5 64 S\nhop I K -\nto R B\n# done\n\n",
                Ok("814e587abe2327bef3a8c753016c73134767664e0b6ce8b618a68d82762ffece"),
            ),
        ],
    )
}

#[test]
fn requests_outside_the_grammar(rt: HostRuntime) -> Result<(), Fail> {
    let alloc = rt.alloc();
    expect_texts(
        &rt,
        alloc,
        &[
            ("", Err(1)),
            ("packet lab 5 64 S\nhop I K -\nto R Y\n", Err(3)),
            ("packet lab 5 64 S\nhop I K 10800001\nto R B\n", Err(2)),
            ("packet lab 5 64 S\nhop I K draw\nto R B\n", Err(2)),
            ("packet lab 5 64 S\nhop I K -\nto R B\nhop\n", Err(4)),
            ("packet lab 5 64 S\nhop I K -\nto R B -\n", Err(3)),
            ("packet lab 5 64 S\nto R B\n", Err(2)),
            ("packet lab 1 64 S\nhop I K -\nhop I K -\nto R B\n", Err(3)),
        ],
    )
}

/// The line of this number, counted from 0.
fn line_at(alloc: Global, text: &[u8], number: u64) -> Result<Vec<u8>, Fail> {
    let source = MemSource::new(text.to_vec(alloc)?, Vec::new(alloc));
    let mut reader = LineReader::new(alloc, source);
    for _ in 0..number {
        let _ = reader.next_line(alloc)?;
    }
    Ok(reader.next_line(alloc)?.ok_or("the line is missing")?)
}

/// Lines, each with its line feed, of which the second is given as it is.
fn three_lines(
    alloc: Global,
    first: &str,
    second: &[u8],
    third: &str,
) -> Result<Vec<u8>, AllocError> {
    let mut text = filled(alloc, first)?;
    text.extend_from_slice(second)?;
    text.push(b'\n')?;
    text.extend_from_slice(&filled(alloc, third)?)?;
    Ok(text)
}

#[test]
fn a_block_its_answer_and_a_changed_reply(rt: HostRuntime) -> Result<(), Fail> {
    let alloc = rt.alloc();
    let request = filled(
        alloc,
        "block lab 3 16 T\ndraw 1510840656 35880 8530212\nhop J L 77\nhop e9cd84d785db9f1d83a34d882accb35dcbc9da34201cb3b405a9147ba6c4a930 d8828343e34f83b8918691fd3180ce82d05d0f031faa95a15d7a2070c98a1af4 77\nto fb9e15bf967673038e829165a0c349c060a217e3e81f59d51eaac10bd49fb82a U\n",
    )?;
    let (answer, made) = run(alloc, &["make"], request, &[], &[])?;
    assert!(rt; answer == Some(Status::Done));
    assert!(rt;
        sum(alloc, made.bytes())?.as_str()
            == "fb750d5b48813fb66fe289ad0c6d3c0cf329e11dc98d087fef8be5868af1ea89"
    );
    let block = line_at(alloc, made.bytes(), 0)?;
    let request = three_lines(alloc, "answer lab 3 16\n", &block, "body Y\n")?;
    let (answer, sent) = run(alloc, &["answer"], request, &[], &[])?;
    assert!(rt; answer == Some(Status::Done));
    assert!(rt;
        sum(alloc, sent.bytes())?.as_str()
            == "25ca1ab586e5538ecd2a9a69f407a2b22884aaa752a12d810ac5aae87bdf8d03"
    );
    let keys = line_at(alloc, made.bytes(), 1)?;
    let mut request = three_lines(alloc, "open lab 3 16\n", &keys, "payload ")?;
    for _ in 0..652 {
        request.extend_from_slice(b"5a")?;
    }
    let (answer, opened) = run(alloc, &["open"], request, &[], &[])?;
    assert!(rt; answer == Some(Status::Done));
    assert!(rt; opened.bytes() == b"damaged\n".as_slice());
    Ok(())
}

#[test]
fn failed_calls_are_named(rt: HostRuntime) -> Result<(), Fail> {
    let alloc = rt.alloc();
    let request = "packet lab 5 64 S\nhop I K -\nto R B\n";
    let (answer, sink) = run(alloc, &["make"], filled(alloc, request)?, &[1], &[])?;
    assert!(rt; answer == Some(Status::ReadFault) && sink.bytes().is_empty());
    let (answer, sink) = run(alloc, &["make"], filled(alloc, request)?, &[], &[1])?;
    assert!(rt; answer == Some(Status::WriteFault) && sink.bytes().is_empty());
    Ok(())
}

/// Bytes of this number, all different from their neighbours, as hexadecimal digits.
fn digits(alloc: Global, count: u64) -> Result<String, Fail> {
    let mut bytes = Vec::new(alloc);
    for place in 0..count {
        bytes.push((place % 251) as u8)?;
    }
    Ok(hex::encode(alloc, &bytes)?)
}

/// The bytes that the second of two words spells.
fn second_bytes(alloc: Global, line: &[u8]) -> Result<Vec<u8>, Fail> {
    let (_, rest) = next_word(line).ok_or("there is no word")?;
    let word = one_word(rest).ok_or("there is no second word")?;
    Ok(hex::decode(alloc, word)?)
}

/// What the last of five hops finds in a packet of the largest geometry, where all hops have this key.
fn at_the_last_hop(alloc: Global, key: &[u8; 32], packet: Vec<u8>) -> Result<Out, Fail> {
    let geometry = Geometry::new(LabKem::CT, 5, 4096)
        .ok()
        .ok_or("there is no geometry")?;
    let mut packet = Bytes::of(packet);
    for _ in 0..4 {
        let opened = unwrap::<LabSuite>(alloc, &geometry, key, packet.as_slice())
            .ok()
            .ok_or("a hop refuses")?;
        match opened.out {
            Out::Forward {
                next: _,
                packet: carried,
            } => packet = carried,
            _ => return Err("a hop hands nothing on".into()),
        }
    }
    let opened = unwrap::<LabSuite>(alloc, &geometry, key, packet.as_slice())
        .ok()
        .ok_or("the last hop refuses")?;
    Ok(opened.out)
}

/// A request to make something for a path of five hops with one key, up to its last line.
fn five_hops(alloc: Global, product: &str) -> Result<Vec<u8>, Fail> {
    let mut request = filled(alloc, product)?;
    request.extend_from_slice(&filled(alloc, " lab 5 4096 S\n")?)?;
    for _ in 0..5 {
        request.extend_from_slice(&filled(alloc, "hop I K 7\n")?)?;
    }
    Ok(request)
}

/// The text of a command that must succeed.
fn done(rt: &impl Abort, alloc: Global, word: &str, request: Vec<u8>) -> Result<Vec<u8>, Fail> {
    let (answer, sink) = run(alloc, &[word], request, &[], &[])?;
    assert!(rt; answer == Some(Status::Done));
    Ok(sink.bytes().to_vec(alloc)?)
}

#[test]
fn a_packet_of_the_largest_geometry(rt: HostRuntime) -> Result<(), Fail> {
    let alloc = rt.alloc();
    let key = read_32(meant(b'K').as_bytes()).ok_or("there is no key")?;
    let sent = digits(alloc, 4096)?;
    let mut request = five_hops(alloc, "packet")?;
    request.extend_from_slice(&filled(alloc, "to R ")?)?;
    request.extend_from_slice(sent.as_bytes())?;
    let made = done(&rt, alloc, "make", request)?;
    let packet = second_bytes(alloc, &line_at(alloc, &made, 1)?)?;
    match at_the_last_hop(alloc, &key, packet)? {
        Out::Deliver {
            recipient,
            body,
            block,
        } => {
            assert!(rt; recipient == [0x22; 32] && block.is_none());
            assert!(rt; hex::encode(alloc, body.as_slice())? == sent);
        }
        _ => return Err("nothing is delivered".into()),
    }
    Ok(())
}

#[test]
fn a_reply_of_the_largest_geometry(rt: HostRuntime) -> Result<(), Fail> {
    let alloc = rt.alloc();
    let key = read_32(meant(b'K').as_bytes()).ok_or("there is no key")?;
    let sent = digits(alloc, 4096)?;
    let sent_line = format!(in alloc; "body {sent}\n")?;
    let mut request = five_hops(alloc, "block")?;
    request.extend_from_slice(&filled(alloc, "to R U\n")?)?;
    let made = done(&rt, alloc, "make", request)?;
    let block = line_at(alloc, &made, 0)?;
    let request = three_lines(alloc, "answer lab 5 4096\n", &block, &sent_line)?;
    let answer = done(&rt, alloc, "answer", request)?;
    let packet = second_bytes(alloc, &line_at(alloc, &answer, 1)?)?;
    let payload = match at_the_last_hop(alloc, &key, packet)? {
        Out::Reply {
            recipient: _,
            surb: _,
            payload,
        } => hex::encode(alloc, payload.as_slice())?,
        _ => return Err("nothing comes back".into()),
    };
    let keys = line_at(alloc, &made, 1)?;
    let payload_line = format!(in alloc; "payload {payload}\n")?;
    let request = three_lines(alloc, "open lab 5 4096\n", &keys, &payload_line)?;
    let opened = done(&rt, alloc, "open", request)?;
    assert!(rt; opened.as_slice() == sent_line.as_bytes());
    Ok(())
}

/// The public key of epoch 0 under a seed of zeros in the suite `ntru`, as hexadecimal digits.
fn key_of_zeros(rt: &impl Abort, alloc: Global) -> Result<Vec<u8>, Fail> {
    let (answer, sink) = run(
        alloc,
        &["keys", "ntru", "Z", "0"],
        Vec::new(alloc),
        &[],
        &[],
    )?;
    assert!(rt; answer == Some(Status::Done));
    assert!(rt;
        sum(alloc, sink.bytes())?.as_str()
            == "1918a645fc92a46a0076c821ae679dea716c34b759e6af0c0c8bfffe67da3e12"
    );
    let line = line_at(alloc, sink.bytes(), 0)?;
    let (_, rest) = next_word(&line).ok_or("there is no word")?;
    let (_, rest) = next_word(rest).ok_or("there is no epoch")?;
    let key = one_word(rest).ok_or("there is no key")?;
    Ok(key.to_vec(alloc)?)
}

/// Makes the first field of a ciphertext's rounded part 1531, which is out of range.
fn spoil_ciphertext(packet: &mut [u8]) {
    for (place, byte) in packet.iter_mut().enumerate() {
        match place {
            34 => *byte = 0xfb,
            35 => *byte = 0x05,
            36 | 37 => *byte = 0,
            _ => {}
        }
    }
}

#[test]
fn a_packet_of_the_suite_ntru(rt: HostRuntime) -> Result<(), Fail> {
    let alloc = rt.alloc();
    let pair = epoch_pair::<NtruSuite>(alloc, &[0; 32], 0)?;
    let key = hex::encode(alloc, pair.pk.as_slice())?;
    let head = "packet ntru 5 2000 S\nhop I N -\nto R ";
    let mut request = filled_with(alloc, head, key.as_bytes())?;
    for _ in 0..2000 {
        request.extend_from_slice(b"41")?;
    }
    let made = done(&rt, alloc, "make", request)?;
    assert!(rt;
        sum(alloc, &made)?.as_str()
            == "92fbe0819edec4fb5a4185eb1c67b73910b2fe915d2d0dcdfb0467b36ee2f669"
    );
    let mut packet = second_bytes(alloc, &line_at(alloc, &made, 1)?)?;
    assert!(rt; packet.len() == 15_546);
    let geometry = Geometry::new(NtruKem::CT, 5, 2000)
        .ok()
        .ok_or("there is no geometry")?;
    let opened = unwrap::<NtruSuite>(alloc, &geometry, pair.sk.as_slice(), &packet)?;
    match opened.out {
        Out::Deliver {
            recipient,
            body,
            block,
        } => {
            assert!(rt; recipient == [0x22; 32] && block.is_none());
            assert!(rt; body.as_slice() == [0x41; 2000].as_slice());
        }
        _ => return Err("nothing is delivered".into()),
    }
    spoil_ciphertext(&mut packet);
    match unwrap::<NtruSuite>(alloc, &geometry, pair.sk.as_slice(), &packet) {
        Err(UnwrapFault::Refused(Refused::Sealed)) => Ok(()),
        _ => Err("a spoiled ciphertext opens".into()),
    }
}

#[test]
fn a_block_and_an_answer_of_the_suite_ntru(rt: HostRuntime) -> Result<(), Fail> {
    let alloc = rt.alloc();
    let key = key_of_zeros(&rt, alloc)?;
    let request = "block ntru 3 16 S\nhop I N 77\nhop J N -\nto R U\n";
    let made = done(&rt, alloc, "make", filled_with(alloc, request, &key)?)?;
    assert!(rt;
        sum(alloc, &made)?.as_str()
            == "26a547185a7f1b8fd50b9b5a06dac9d9dd068c282a4e599d7172166d2dd09ef3"
    );
    let block = line_at(alloc, &made, 0)?;
    let request = three_lines(alloc, "answer ntru 3 16\n", &block, "body Y\n")?;
    let sent = done(&rt, alloc, "answer", request)?;
    assert!(rt;
        sum(alloc, &sent)?.as_str()
            == "5522871b0a5809379739d342d66c2ae0cd7a244996e2d926688f69c3b8c9309f"
    );
    let keys = line_at(alloc, &made, 1)?;
    let mut request = three_lines(alloc, "open ntru 3 16\n", &keys, "payload ")?;
    for _ in 0..4648 {
        request.extend_from_slice(b"5a")?;
    }
    let opened = done(&rt, alloc, "open", request)?;
    assert!(rt; opened.as_slice() == b"damaged\n".as_slice());
    Ok(())
}

/// The digits of a key whose fields are all 0, up to the last.
fn key_ending_in(alloc: Global, last: &str) -> Result<Vec<u8>, AllocError> {
    let mut key = Vec::new(alloc);
    for _ in 0..1216 {
        key.extend_from_slice(b"00")?;
    }
    key.extend_from_slice(last.as_bytes())?;
    Ok(key)
}

#[test]
fn keys_that_are_none_of_the_suite(rt: HostRuntime) -> Result<(), Fail> {
    let alloc = rt.alloc();
    // A last field of 4590 and one of 4591, the first out of range; the body is too short for the line behind.
    let cases: [(&str, &str, u64); 4] = [
        ("packet ntru 5 64 S\nhop I N -\nto R Y\n", "ee11", 3),
        ("packet ntru 5 64 S\nhop I N -\nto R Y\n", "ef11", 2),
        ("packet ntru 5 64 S\nhop I K -\nto R Y\n", "ee11", 2),
        ("packet lab 5 64 S\nhop I N -\nto R Y\n", "ee11", 2),
    ];
    for (request, last, line) in cases {
        let request = filled_with(alloc, request, &key_ending_in(alloc, last)?)?;
        let (answer, sink) = run(alloc, &["make"], request, &[], &[])?;
        assert!(rt; answer == Some(Status::Line { line }) && sink.bytes().is_empty());
    }
    Ok(())
}

/// Five hops and the longest body: the coins are 3,805 words, and each delay is drawn.
#[test]
fn a_packet_of_the_largest_geometry_of_ntru(rt: HostRuntime) -> Result<(), Fail> {
    let alloc = rt.alloc();
    let key = key_ending_in(alloc, "ee11")?;
    let mut request = filled(alloc, "packet ntru 5 4096 S\ndraw 2147483648 100 1000\n")?;
    for _ in 0..5 {
        request.extend_from_slice(&filled_with(alloc, "hop I N draw\n", &key)?)?;
    }
    request.extend_from_slice(&filled(alloc, "to R ")?)?;
    request.extend_from_slice(digits(alloc, 4096)?.as_bytes())?;
    let made = done(&rt, alloc, "make", request)?;
    assert!(rt;
        sum(alloc, &made)?.as_str()
            == "ef77e75f134d7508089748ae3f00f6ad62c9ab6b4a9247c1e0fa119057525002"
    );
    Ok(())
}
