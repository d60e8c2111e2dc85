// The objects in memory through the bounds that code above uses them by, and xor by worked values.
ghost use Rattle.std.specs.Prelude.{◌≡◌, [], length};

use crate::{
    Bytes, Failed, ListWords, MemSink, MemSource, PutFault, Shape, Sink, Source, Storied, Words,
    copy_front, is_zero, next_words, skip_words, write_words, xor_into,
};
use std::alloc::{AllocError, Global};
use std::test::Fail;

fn read_some<I: Source>(source: &mut I, buf: &mut [u8]) -> Result<usize, Failed> {
    source.read(buf)
}

fn put_all<O: Sink>(sink: &mut O, alloc: Global, bytes: &[u8]) -> Result<(), PutFault> {
    sink.put(alloc, bytes)
}

fn next_word<W: Words>(words: &mut W) -> u32 {
    words.next()
}

#[test]
fn source_gives_its_bytes_in_order_and_fails_at_the_listed_calls(
    rt: HostRuntime,
) -> Result<(), Fail> {
    let bytes = b"abcdef".to_vec(rt.alloc())?;
    let failing = vec![in rt.alloc(); 2, 5]?;
    let mut source = MemSource::new(bytes, failing);
    let want: [Result<&[u8], Failed>; 6] = [
        Ok(b"abcd"),
        Err(Failed),
        Ok(b"ef"),
        Ok(b""),
        Err(Failed),
        Ok(b""),
    ];
    for answer in want {
        let mut buf = [0u8; 4];
        match read_some(&mut source, &mut buf) {
            Ok(count) => {
                assert!(rt; count <= 4);
                assert_eq!(rt; Ok(&buf[..count]), answer);
            }
            Err(failed) => assert_eq!(rt; Err(failed), answer),
        }
    }
    Ok(())
}

#[test]
fn sink_keeps_what_it_is_given_and_fails_at_the_listed_calls(rt: HostRuntime) -> Result<(), Fail> {
    let failing = vec![in rt.alloc(); 2]?;
    let mut sink = MemSink::new(rt.alloc(), failing);
    assert_eq!(rt; put_all(&mut sink, rt.alloc(), b"one"), Ok(()));
    assert_eq!(rt;
        put_all(&mut sink, rt.alloc(), b"two"),
        Err(PutFault::WriteFault)
    );
    assert_eq!(rt; put_all(&mut sink, rt.alloc(), b"three"), Ok(()));
    assert_eq!(rt; sink.bytes(), b"onethree".as_slice());
    Ok(())
}

#[test]
fn words_of_a_list_come_again_and_again(rt: HostRuntime) -> Result<(), Fail> {
    let list = vec![in rt.alloc(); 7, 0, 0xffff_ffff]?;
    assert!(rt; list.len() > 0);
    let mut words = ListWords::new(list);
    for want in [7, 0, 0xffff_ffff, 7, 0, 0xffff_ffff, 7] {
        assert_eq!(rt; next_word(&mut words), want);
    }
    Ok(())
}

#[test]
fn bytes_are_the_vector_that_they_were_made_of(rt: HostRuntime) -> Result<(), Fail> {
    let mut target = [0x0f, 0xf0, 0xaa];
    xor_into(&mut target, &[0xff, 0x0f, 0xaa]);
    assert_eq!(rt; target, [0xf0, 0xff, 0x00]);
    let bytes = Bytes::of(target.to_vec(rt.alloc())?);
    assert_eq!(rt; bytes.as_slice(), [0xf0, 0xff, 0x00].as_slice());
    assert_eq!(rt; bytes.into_vec().as_slice(), [0xf0, 0xff, 0x00].as_slice());
    Ok(())
}

#[test]
fn words_are_drawn_passed_over_and_written_low_byte_first(rt: HostRuntime) -> Result<(), Fail> {
    let list = vec![in rt.alloc(); 1, 2, 0x0403_0201, 0xff]?;
    assert!(rt; list.len() > 0);
    let mut words = ListWords::new(list);
    skip_words(&mut words, 2);
    let drawn = next_words(rt.alloc(), &mut words, 2).map_err(|_| AllocError)?;
    assert_eq!(rt; drawn.as_slice(), [0x0403_0201, 0xff].as_slice());
    let mut out = [9; 8];
    write_words(&drawn, &mut out);
    assert_eq!(rt; out, [1, 2, 3, 4, 0xff, 0, 0, 0]);
    assert_eq!(rt; next_word(&mut words), 1);
    Ok(())
}

#[test]
fn fronts_are_copied_and_zeros_are_known(rt: HostRuntime) -> Result<(), Fail> {
    let mut buf = [7; 4];
    assert_eq!(rt; copy_front(b"ab", &mut buf), 2);
    assert_eq!(rt; buf, [b'a', b'b', 7, 7]);
    assert_eq!(rt; copy_front(&[0, 0, 0, 0, 0], &mut buf), 4);
    assert!(rt; is_zero(&buf) && !is_zero(&[0, 1]));
    Ok(())
}

#[test]
fn a_shape_has_at_most_sixteen_shards_and_an_index_below_them(rt: HostRuntime) -> Result<(), Fail> {
    let cases = [
        (1, 0, true),
        (16, 15, true),
        (0, 0, false),
        (4, 4, false),
        (17, 3, false),
    ];
    for (shards, index, allowed) in cases {
        assert_eq!(rt; Shape { shards, index }.is_allowed(), allowed);
    }
    Ok(())
}

// A value whose story is the list of its callers.
#[derive(Drop)]
struct Book {
    callers: Vec<u32>,
}

impl Storied for Book {
    type Entry = u32;

    ghost origin = { λ _. [] };

    ghost story = { λ book. book.callers.items };

    ghost caller = { λ entry. entry };

    fn entries(&self) -> u64 {
        self.callers.len() as u64
    }
}

fn entries_of<T: Storied>(value: &T) -> u64
    ensures { result ≡ length (T.story value.now) }
{
    value.entries()
}

#[test]
fn a_story_is_as_long_as_its_entries(rt: HostRuntime) -> Result<(), Fail> {
    let callers = vec![in rt.alloc(); 2, 0, 2]?;
    assert_eq!(rt; entries_of(&Book { callers }), 3);
    Ok(())
}
