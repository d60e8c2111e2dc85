// Reads and writes of the system, which may do a part or be interrupted by a signal, as whole ones. Their clauses say
// what came and went where a reader or writer tells it.
ghost use Rattle.std.specs.Prelude.{◌≡◌, ◌<◌, ◌≤◌, length, take, IfOk, OnErr, OnOk};
ghost use Rattle.std.specs.Io.KnownBytes.{Appends, Consumes, IsAtEnd, Keeps};
ghost use Rattle.std.specs.Io.Seek.{MovesTo};

use std::io;
use std::io::{Read, Seek, SeekFrom, Write};

/// How often a read is tried that a signal interrupts.
const TRIES: u32 = 1_000_000;

/// One read, tried again where a signal interrupts it.
pub(crate) fn read_again<R: Read>(reader: &mut R, buf: &mut [u8]) -> io::Result<usize>
    ensures within { IfOk result (λ count. count ≤ length buf.old) }
    ensures bytes { IfOk result (λ count.
        Consumes (R.remaining reader.old) (R.remaining reader.new) (take count buf.new)) }
    ensures end { IfOk result (λ count.
        count ≡ 0 → 0 < length buf.old → IsAtEnd (R.remaining reader.new)) }
    ensures kept { OnErr result (Keeps (R.remaining reader.old) (R.remaining reader.new)) }
{
    for _try in 0..TRIES {
        match reader.read(buf) {
            Err(error) if error.kind() == io::ErrorKind::Interrupted => {}
            read => return read,
        }
    }
    Err(io::Error::from(io::ErrorKind::Interrupted))
}

/// Reads until the buffer is full or nothing is left, and answers how many bytes that were.
pub(crate) fn read_whole<R: Read>(reader: &mut R, buf: &mut [u8]) -> io::Result<usize>
    ensures within { IfOk result (λ count. count ≤ length buf.old) }
    ensures bytes { IfOk result (λ count.
        Consumes (R.remaining reader.old) (R.remaining reader.new) (take count buf.new)) }
    ensures end { IfOk result (λ count.
        count < length buf.old → IsAtEnd (R.remaining reader.new)) }
{
    let mut filled = 0;
    'parts: while filled < buf.len() {
        let count = read_again(reader, &mut buf[filled..])?;
        if count == 0 {
            break;
        }
        filled += count;
    }
    Ok(filled)
}

/// Writes all of the bytes, or fails after a front of them.
pub(crate) fn write_whole<W: Write>(writer: &mut W, bytes: &[u8]) -> io::Result<()>
    ensures { OnOk result (Appends (W.contents writer.old) (W.contents writer.new) bytes.now) }
{
    writer.write_all(bytes)
}

/// Goes to a place, counted from the front.
pub(crate) fn go_to<F: Seek>(file: &mut F, place: u64) -> io::Result<()>
    ensures { MovesTo (F.stream_position file.old) (F.stream_position file.new) place result }
{
    match file.seek(SeekFrom::Start(place)) {
        Ok(_) => Ok(()),
        Err(error) => Err(error),
    }
}
