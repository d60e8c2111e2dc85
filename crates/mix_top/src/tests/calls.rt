// Calls of commands that read nothing, on disks in memory.
ghost use Rattle.std.specs.Prelude.{◌≡◌, length};

use crate::{Bench, mix_command};
use lab_text::Status;
use mix_base::{MemSink, MemSource};
use replay_disk::MemRack;
use std::alloc::{AllocError, Global};
use std::test::Fail;

/// The words of a command line, which single spaces part.
fn words_of(alloc: Global, line: &str) -> Result<Vec<String>, AllocError> {
    let mut words = Vec::new(alloc);
    for word in line.split(' ') {
        words.push(String::from_str(alloc, word)?)?;
    }
    Ok(words)
}

/// How the command of these words ends on these disks, and what it gives.
pub fn answered(
    alloc: Global,
    bench: &mut Bench<MemRack, MemRack>,
    line: &str,
) -> Result<(Status, Vec<u8>), Fail>
    requires lab { length bench.old.lab.items ≡ 16 }
    requires kept { length bench.old.kept.items ≡ 32 }
    ensures lab { length bench.new.lab.items ≡ 16 }
    ensures kept { length bench.new.kept.items ≡ 32 }
{
    let mut source = MemSource::new(Vec::new(alloc), Vec::new(alloc));
    let mut sink = MemSink::new(alloc, Vec::new(alloc));
    let words = words_of(alloc, line)?;
    let status = mix_command(alloc, &words, &mut source, &mut sink, bench);
    Ok((status, sink.bytes().to_vec(alloc)?))
}
