// The steps that change a log's area: a write that is brought to the disk, and a record behind the others. Each
// says what a crash may leave at its every moment.
ghost use Rattle.std.specs.Prelude.{◌≡◌, ◌≢◌, true, false, ℕ, ◌+◌, ◌<◌, ◌≤◌, ◌^◌, [], ◌∷◌, ◌++◌};
ghost use Rattle.std.specs.Prelude.{length, take, OnOk, IsErr};
ghost use Rattle.replay_disk.specs.Disk.{IsAtRest, ReadsAnImage, MadeNoCall, Owes, area_at};
ghost use Rattle.replay_disk.specs.Disk.{contents_of, settled, with_bytes};
ghost use Rattle.gate_log.specs.Log.{OthersStayThrough, AppendLeavesIn, ClosingLeaves};
ghost use Rattle.gate_log.specs.Records.{records, end_place, with_records, IsClosed, ClosesEnd};
ghost use Rattle.gate_log.specs.Scanning.{WriteLeaves};

use mix_base::Failed;
use replay_disk::Rack;

/// Writes bytes at a place of an area, and brings the area to the disk.
pub fn write_synced<R: Rack>(rack: &mut R, area: u8, at: u64, bytes: &[u8]) -> Result<(), Failed>
    requires area { area < 3 }
    requires some { 0 < length bytes.now }
    requires range { at + length bytes.now ≤ 2 ^ 40 }
    requires place { R.tells → at ≤ length (contents_of area (R.state rack.old)) }
    requires room { R.tells → length bytes.now ≤ (R.state rack.old).room }
    ensures written { R.tells → OnOk result (area_at area (R.state rack.new).areas
        ≡ settled (with_bytes at bytes.now (contents_of area (R.state rack.old)))) }
    ensures others { R.tells → OthersStayThrough area (R.state rack.old) (R.state rack.new) }
    ensures image { R.tells → ReadsAnImage (R.state rack.new).areas area }

    // Over an area at rest a crash leaves what stands outside the range.
    ensures each_moment { R.tells → IsAtRest (R.state rack.old).areas area →
        WriteLeaves area at (length bytes.now) (R.state rack.old) (R.state rack.new) }
    ensures room { R.tells → (R.state rack.new).room + length bytes.now ≡ (R.state rack.old).room }
    ensures owes { Owes 2 (IsErr result) (R.state rack.old) (R.state rack.new) }
{
    rack.write(area, at, bytes)?;
    rack.sync(area)?;
    Ok(())
}

/// Appends a record at the end place. The gate byte behind it is closed on the disk, with the record, before its own
/// gate is opened.
pub fn append_at<R: Rack>(rack: &mut R, area: u8, place: u64, bytes: &[u8]) -> Result<(), Failed>
    requires area { area < 3 }
    requires some { 0 < length bytes.now }
    requires short { length bytes.now ≤ 63 }
    requires range { place + length bytes.now + 2 ≤ 2 ^ 40 }
    requires at_rest { R.tells → IsAtRest (R.state rack.old).areas area }
    requires place { R.tells →
        place ≡ end_place (length bytes.now) (contents_of area (R.state rack.old)) }
    requires closed { R.tells → IsClosed (length bytes.now) (contents_of area (R.state rack.old)) }
    requires room { R.tells → length bytes.now + 2 ≤ (R.state rack.old).room }
    ensures written { R.tells → OnOk result (area_at area (R.state rack.new).areas
        ≡ settled (with_records (length bytes.now) (bytes.now ∷ [])
        (contents_of area (R.state rack.old)))) }
    ensures each_moment { R.tells → AppendLeavesIn area (length bytes.now) (bytes.now ∷ [])
        (R.state rack.old) (R.state rack.new) }
    ensures image { R.tells → ReadsAnImage (R.state rack.new).areas area }
    ensures room { R.tells →
        (R.state rack.old).room ≤ (R.state rack.new).room + length bytes.now + 2 }
    ensures owes { Owes 4 (IsErr result) (R.state rack.old) (R.state rack.new) }
{
    let framed = with_closed_gate(bytes);
    write_synced(rack, area, place + 1, &framed[..bytes.len() + 1])?;
    write_synced(rack, area, place, &[OPEN])?;
    Ok(())
}

/// Puts a closed gate behind the records of an area that is at rest, unless one stands there.
pub fn close_end<R: Rack>(
    rack: &mut R,
    area: u8,
    size: usize,
    count: u64,
    closed: bool,
) -> Result<(), Failed>
    requires area { area < 3 }
    requires size { size ≤ 63 }
    requires few_records { count ≤ 2 ^ 26 }
    requires at_rest { R.tells → IsAtRest (R.state rack.old).areas area }
    requires count { R.tells → length (records size (contents_of area (R.state rack.old))) ≡ count }
    requires shut { R.tells → closed ≡ true → IsClosed size (contents_of area (R.state rack.old)) }
    requires unshut { R.tells → closed ≡ false →
        ¬ IsClosed size (contents_of area (R.state rack.old)) }
    requires few { R.tells → closed ≡ false → length (contents_of area (R.state rack.old))
        ≤ end_place size (contents_of area (R.state rack.old)) + size + 1 }
    requires room { R.tells → 1 ≤ (R.state rack.old).room }
    ensures at_rest { R.tells → OnOk result (IsAtRest (R.state rack.new).areas area) }
    ensures kept { R.tells → OnOk result (records size (contents_of area (R.state rack.new))
        ≡ records size (contents_of area (R.state rack.old))) }
    ensures end { R.tells → OnOk result (IsClosed size (contents_of area (R.state rack.new))) }
    ensures contents { R.tells → OnOk result (ClosesEnd size (contents_of area (R.state rack.old))
        (contents_of area (R.state rack.new))) }
    ensures nothing { closed ≡ true → MadeNoCall (R.state rack.old) (R.state rack.new) }
    ensures each_moment { R.tells → ClosingLeaves area size (R.state rack.old) (R.state rack.new) }
    ensures image { R.tells → ReadsAnImage (R.state rack.new).areas area }
    ensures room { R.tells → (R.state rack.old).room ≤ (R.state rack.new).room + 1 }
    ensures owes { Owes 2 (IsErr result) (R.state rack.old) (R.state rack.new) }
{
    if closed {
        return Ok(());
    }
    write_synced(rack, area, count * (size as u64 + 1), &[CLOSED])?;
    Ok(())
}

/// A gate byte that lets its record count.
pub const OPEN: u8 = 1;

/// A gate byte that stands at the end place.
pub const CLOSED: u8 = 0;

/// The bytes of a record and a closed gate behind them.
fn with_closed_gate(bytes: &[u8]) -> [u8; 64]
    requires { length bytes.now ≤ 63 }
    ensures { take (length bytes.now + 1) result ≡ bytes.now ++ 0 ∷ [] }
{
    let mut framed = [CLOSED; 64];
    framed[..bytes.len()].copy_from_slice(bytes);
    framed
}
