// The records of an area of a rack, and what they say: those of the root, or the tags of an epoch's log. A look reads them
// as they are; an opening brings the area to the disk before.
ghost use Rattle.std.specs.Prelude.{◌≡◌, ℕ, ◌+◌, ◌*◌, ◌^◌, ◌<◌, ◌≤◌, List, length, map, None};
ghost use Rattle.std.specs.Prelude.{vec_len, IfOk, OnOk, IfErr, IsErrOf};
ghost use Rattle.std.specs.List.{concat};
ghost use Rattle.replay_disk.specs.Disk.{contents_of, OnlyRead, Owes};
ghost use Rattle.gate_log.specs.Log.{WasRead, ReadingLeaves, most_reads};
ghost use Rattle.gate_log.specs.Records.{records};
ghost use Rattle.spent_store.specs.Faults.{Refuses};
ghost use Rattle.spent_store.specs.Books as books;
ghost use Rattle.spent_store.specs.Joined.{cut};
ghost use Rattle.spent_store.specs.Root.{root_record, roots_in};

use crate::faults::OpenStore;
use crate::root::RootRecord;
use gate_log::{GateLog, LogOpen, ReadLog};
use mix_base::Bytes;
use replay_disk::Rack;
use std::alloc::{AllocError, Global};

/// The records of an area, one after the other; or that there are more than the limit, which is at most 2^26. Nothing
/// is written.
pub fn read_area<R: Rack, const N: usize>(
    alloc: Global,
    rack: &mut R,
    limit: u64,
    area: u8,
) -> Result<Bytes, OpenStore>
    requires area { area < 3 }
    requires some { 0 < N }
    requires size { N ≤ 63 }
    requires limit { limit ≤ 2 ^ 26 }
    ensures records { R.tells →
        IfOk result (λ found. found ≡ concat (records N (contents_of area (R.state rack.old)))) }
    ensures fits { R.tells →
        OnOk result (books.overfull limit area N (contents_of area (R.state rack.old)) ≡ None) }
    ensures short { IfOk result (λ found. length found ≤ N * limit) }
    ensures objection { R.tells → IfErr result (λ fault.
        Refuses fault (books.overfull limit area N (contents_of area (R.state rack.old)))) }
    ensures same { OnlyRead (R.state rack.old) (R.state rack.new) }
    ensures owes { Owes (most_reads limit) (IsErrOf result OpenStore.Failed)
        (R.state rack.old) (R.state rack.new) }
{
    let found = GateLog::read_records(alloc, rack, area, N, limit)?;
    if found.more {
        let at = limit * (N as u64 + 1);
        return Err(OpenStore::Foreign { area, at });
    }
    Ok(found.records)
}

/// Brings the log of an area to the disk and reads it; or says that it has more records than the limit, which is at most
/// 2^26. Nothing is written.
pub fn read_log<R: Rack, const N: usize>(
    alloc: Global,
    rack: &mut R,
    limit: u64,
    area: u8,
) -> Result<ReadLog, OpenStore>
    requires area { area < 3 }
    requires some { 0 < N }
    requires size { N ≤ 63 }
    requires limit { limit ≤ 2 ^ 26 }
    ensures log { IfOk result (λ log. log ≡ record log { area = area; size = N; limit = limit }) }
    ensures was_read { R.tells → IfOk result (λ log. WasRead log (R.state rack.new)) }
    ensures within { IfOk result (λ log. log.count ≤ limit) }
    ensures whole { IfOk result (λ log. length log.records ≡ N * log.count) }
    ensures fits { R.tells →
        OnOk result (books.overfull limit area N (contents_of area (R.state rack.old)) ≡ None) }
    ensures objection { R.tells → IfErr result (λ fault.
        Refuses fault (books.overfull limit area N (contents_of area (R.state rack.old)))) }
    ensures unwritten { R.tells →
        contents_of area (R.state rack.new) ≡ contents_of area (R.state rack.old) }
    ensures each_moment { R.tells → ReadingLeaves area (R.state rack.old) (R.state rack.new) }
    ensures room { R.tells → (R.state rack.new).room ≡ (R.state rack.old).room }
    ensures owes { Owes (most_reads limit + 1) (IsErrOf result OpenStore.Failed)
        (R.state rack.old) (R.state rack.new) }
{
    match ReadLog::read(alloc, rack, area, N, limit) {
        Ok(log) => Ok(log),
        Err(LogOpen::Failed) => Err(OpenStore::Failed),
        Err(LogOpen::Overfull { at }) => Err(OpenStore::Foreign { area, at }),
        Err(LogOpen::Memory) => Err(OpenStore::Memory),
    }
}

/// The records of a root, which stand one after the other.
pub fn roots_of(alloc: Global, joined: &[u8]) -> Result<Vec<RootRecord>, AllocError>
    ensures roots { IfOk result (λ roots. roots.items ≡ map root_record (cut 9 joined.now)) }
    ensures short { IfOk result (λ roots. 9 * vec_len roots ≤ length joined.now) }
{
    let (whole, _) = joined.as_chunks::<9>();
    let mut roots = Vec::new(alloc);
    'reading: for record in whole {
        roots.push(RootRecord::of(record))?;
    }
    Ok(roots)
}

/// The records of a rack's root; or that there are more than the limit. Nothing is written.
pub fn read_roots<R: Rack>(
    alloc: Global,
    rack: &mut R,
    limit: u64,
) -> Result<Vec<RootRecord>, OpenStore>
    requires limit { limit ≤ 2 ^ 26 }
    ensures roots { R.tells →
        IfOk result (λ roots. roots.items ≡ roots_in (contents_of 0 (R.state rack.old))) }
    ensures fits { R.tells →
        OnOk result (books.overfull limit 0 9 (contents_of 0 (R.state rack.old)) ≡ None) }
    ensures short { IfOk result (λ roots. vec_len roots ≤ limit) }
    ensures objection { R.tells → IfErr result (λ fault.
        Refuses fault (books.overfull limit 0 9 (contents_of 0 (R.state rack.old)))) }
    ensures same { OnlyRead (R.state rack.old) (R.state rack.new) }
    ensures owes { Owes (most_reads limit) (IsErrOf result OpenStore.Failed)
        (R.state rack.old) (R.state rack.new) }
{
    let joined = read_area::<R, 9>(alloc, rack, limit, 0)?;
    let roots = roots_of(alloc, joined.as_slice())?;
    Ok(roots)
}

/// The tags of a log, which stand one after the other.
pub fn tags_of(alloc: Global, joined: &[u8]) -> Result<Vec<[u8; 32]>, AllocError>
    ensures tags { IfOk result (λ tags. tags.items ≡ cut 32 joined.now) }
    ensures short { IfOk result (λ tags. 32 * vec_len tags ≤ length joined.now) }
{
    let (whole, _) = joined.as_chunks::<32>();
    whole.to_vec(alloc)
}
