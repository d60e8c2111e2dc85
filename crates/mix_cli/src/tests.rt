// What no clause says: that each status of a call comes with its code and its text, where memory is ample.
use crate::program::run;
use lab_text::Status;
use mix_base::{MemSink, MemSource};
use mix_top::Bench;
use std::alloc::Global;
use std::io;
use std::process::Abort;
use std::test::Fail;

/// The seed of the node in these calls, as a word.
const SEED: &str = "0000000000000000000000000000000000000000000000000000000000000000";

/// The line of the public key of its epoch 0.
const KEY_LINE: &str = "key 0 920d9f639d8390f5f6d811d4c99d61b6b772d759812c630090e7decc3a536bfa\n";

/// A call: the words behind the program's name, the input, and the calls of source and sink that fail; the code, the
/// output and the text on standard error that it must end with.
#[derive(Clone, Copy)]
struct Case {
    words: &'static [&'static str],
    input: &'static str,
    reads: &'static [u64],
    writes: &'static [u64],
    code: u8,
    output: &'static str,
    told: &'static str,
}

/// The arguments of a process with these words.
fn arguments(alloc: Global, words: &[&str]) -> Result<Vec<String>, Fail> {
    let mut args = Vec::new(alloc);
    args.push(String::from_str(alloc, "mix")?)?;
    for word in words {
        args.push(String::from_str(alloc, word)?)?;
    }
    Ok(args)
}

fn expect(rt: &impl Abort, alloc: Global, case: &Case) -> Result<(), Fail> {
    let args = arguments(alloc, case.words)?;
    let input = Vec::from_slice(alloc, case.input.as_bytes())?;
    let mut source = MemSource::new(input, Vec::from_slice(alloc, case.reads)?);
    let mut sink = MemSink::new(alloc, Vec::from_slice(alloc, case.writes)?);
    let mut errors = MemSink::new(alloc, Vec::new(alloc));
    let mut bench = Bench::in_memory(alloc)?;
    let ended = run(
        alloc,
        Ok(args.into_iter()),
        &mut source,
        &mut sink,
        &mut errors,
        &mut bench,
    );
    assert!(rt; ended.code == case.code);
    assert!(rt; ended.told == Ok(()));
    assert!(rt; sink.bytes() == case.output.as_bytes());
    assert!(rt; errors.bytes() == case.told.as_bytes());
    Ok(())
}

/// A call whose words are these, over an input.
fn call(words: &'static [&'static str], input: &'static str) -> Case {
    Case {
        words,
        input,
        reads: &[],
        writes: &[],
        code: 0,
        output: "",
        told: "",
    }
}

#[test]
fn codes_and_texts(rt: HostRuntime) -> Result<(), Fail> {
    let alloc = rt.alloc();
    let keys: &[&str] = &["keys", "lab", SEED, "0"];
    let cases = [
        Case {
            output: KEY_LINE,
            ..call(keys, "")
        },
        Case {
            code: 1,
            told: "mix: words\n",
            ..call(&[], "")
        },
        Case {
            code: 1,
            told: "mix: words\n",
            ..call(&["drive", "now"], "")
        },
        Case {
            code: 2,
            told: "mix: line 1\n",
            ..call(&["drive"], "")
        },
        Case {
            code: 2,
            told: "mix: line 2\n",
            ..call(&["make"], "# nothing\n")
        },
        Case {
            code: 3,
            told: "mix: read fault\n",
            reads: &[1],
            ..call(&["open"], "")
        },
        Case {
            code: 4,
            told: "mix: write fault\n",
            writes: &[1],
            ..call(keys, "")
        },
        Case {
            code: 2,
            told: "mix: line 2\n",
            ..call(&["answer"], "answer ntru 1 1\n")
        },
    ];
    for case in &cases {
        expect(&rt, alloc, case)?;
    }
    Ok(())
}

#[test]
fn arguments_that_are_no_words(rt: HostRuntime) -> Result<(), Fail> {
    let alloc = rt.alloc();
    for (kind, status, code) in [
        (io::ErrorKind::InvalidData, Status::Words, 1),
        (io::ErrorKind::OutOfMemory, Status::Memory, 6),
    ] {
        let mut source = MemSource::new(Vec::new(alloc), Vec::new(alloc));
        let mut sink = MemSink::new(alloc, Vec::new(alloc));
        let mut errors = MemSink::new(alloc, Vec::from_slice(alloc, &[1])?);
        let mut bench = Bench::in_memory(alloc)?;
        let args = Err(io::Error::from(kind));
        let ended = run(alloc, args, &mut source, &mut sink, &mut errors, &mut bench);
        assert!(rt; ended.status == status);
        assert!(rt; ended.code == code);
        assert!(rt; ended.told.is_err());
        assert!(rt; errors.bytes().is_empty());
    }
    Ok(())
}
