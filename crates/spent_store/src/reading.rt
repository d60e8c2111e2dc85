// Reading a store: its book from what a rack holds, or the first thing that is against it. Nothing is written.
ghost use Rattle.std.specs.Prelude.{◌≡◌, ℕ, ◌+◌, ◌*◌, ◌^◌, ◌≤◌, ◌<◌, ◌==◌, true, [], ◌∷◌, length};
ghost use Rattle.std.specs.Prelude.{map, None, Ok, IfOk, OnOk, IfErr, IsErrOf};
ghost use Rattle.std.specs.List.{AllByRecursion, list_any, concat};
ghost use Rattle.std.specs.Result.{result_err};
ghost use Rattle.mix_base.specs.Shards.{IsShape};
ghost use Rattle.replay_disk.specs.Disk.{contents_of, OnlyRead, Owes};
ghost use Rattle.gate_log.specs.Log.{most_reads};
ghost use Rattle.gate_log.specs.Records.{records};
ghost use Rattle.spent_store.specs.Faults.{Refuses};
ghost use Rattle.spent_store.specs.Books as books;
ghost use Rattle.spent_store.specs.Joined.{cut_log};
ghost use Rattle.spent_store.specs.Stores.{book_in, told};

use crate::faults::OpenStore;
use crate::known::{KnownBook, KnownLog};
use crate::logs::{read_area, read_roots, tags_of};
use crate::standing::judge_root;
use crate::summary::Book;
use mix_base::{Bytes, Shape};
use replay_disk::Rack;
use std::alloc::{AllocError, Global};

/// Whether an epoch that has begun has its log in this area.
fn is_used(area: u8, begun: &[u64]) -> bool
    ensures { result ≡ list_any (λ epoch. books.area_of epoch == area) begun.now }
{
    begun.iter().any(|epoch| 1 + *epoch % 2 == u64::from(area))
}

/// The records of an area whose log is of a begun epoch, one after the other, and none of another area; or that there
/// are more than the limit.
fn read_used<R: Rack>(
    alloc: Global,
    rack: &mut R,
    limit: u64,
    area: u8,
    begun: &[u64],
) -> Result<Bytes, OpenStore>
    requires area { area < 3 }
    requires limit { limit ≤ 2 ^ 26 }
    ensures records { R.tells →
        IfOk result (λ found. list_any (λ epoch. books.area_of epoch == area) begun.now ≡ true →
        found ≡ concat (records 32 (contents_of area (R.state rack.old)))) }
    ensures fits { R.tells → OnOk result
        (books.overfull_log limit area (contents_of area (R.state rack.old)) begun.now ≡ None) }
    ensures short { IfOk result (λ found. length found ≤ 32 * limit) }
    ensures objection { R.tells → IfErr result (λ fault. Refuses fault
        (books.overfull_log limit area (contents_of area (R.state rack.old)) begun.now)) }
    ensures same { OnlyRead (R.state rack.old) (R.state rack.new) }
    ensures owes { Owes (most_reads limit) (IsErrOf result OpenStore.Failed)
        (R.state rack.old) (R.state rack.new) }
{
    if is_used(area, begun) {
        read_area::<R, 32>(alloc, rack, limit, area)
    } else {
        Ok(Bytes::of(Vec::new(alloc)))
    }
}

/// The log of an epoch, from the records of areas 1 and 2: an even number's are in area 1, an odd one's in area 2.
fn log_of(alloc: Global, one: &[u8], two: &[u8], epoch: u64) -> Result<KnownLog, AllocError>
    requires one { length one.now ≤ 2 ^ 31 }
    requires two { length two.now ≤ 2 ^ 31 }
    ensures { IfOk result (λ log. log ≡ cut_log one.now two.now epoch) }
{
    let joined = if 1 + epoch % 2 == 1 { one } else { two };
    let tags = tags_of(alloc, joined)?;
    Ok(KnownLog::of(epoch, tags))
}

/// The logs of the begun epochs.
fn logs_of(
    alloc: Global,
    one: &[u8],
    two: &[u8],
    begun: &[u64],
) -> Result<Vec<KnownLog>, AllocError>
    requires one { length one.now ≤ 2 ^ 31 }
    requires two { length two.now ≤ 2 ^ 31 }
    ensures { IfOk result (λ logs. logs.items ≡ map (cut_log one.now two.now) begun.now) }
{
    let mut logs = Vec::new(alloc);
    'reading: for epoch in begun {
        logs.push(log_of(alloc, one, two, *epoch)?)?;
    }
    Ok(logs)
}

/// The logs of the begun epochs; or that area 1 has more than the limit, or else area 2.
fn read_logs<R: Rack>(
    alloc: Global,
    rack: &mut R,
    limit: u64,
    begun: &[u64],
) -> Result<Vec<KnownLog>, OpenStore>
    requires { limit ≤ 2 ^ 26 }
    ensures logs { R.tells → IfOk result (λ logs. logs.items ≡ map (books.log_in
        (contents_of 1 (R.state rack.old)) (contents_of 2 (R.state rack.old))) begun.now) }
    ensures epochs { IfOk result (λ logs. map (λ log. log.epoch) logs.items ≡ begun.now) }
    ensures fits { IfOk result (λ logs.
        AllByRecursion (λ log. length log.tags ≤ limit) logs.items) }
    ensures first { R.tells → OnOk result
        (books.overfull_log limit 1 (contents_of 1 (R.state rack.old)) begun.now ≡ None) }
    ensures second { R.tells → OnOk result
        (books.overfull_log limit 2 (contents_of 2 (R.state rack.old)) begun.now ≡ None) }
    ensures objection { R.tells → IfErr result (λ fault. Refuses fault
        (books.first_of (books.overfull_log limit 1 (contents_of 1 (R.state rack.old)) begun.now
        ∷ books.overfull_log limit 2 (contents_of 2 (R.state rack.old)) begun.now ∷ []))) }
    ensures same { OnlyRead (R.state rack.old) (R.state rack.new) }
    ensures owes { Owes (2 * most_reads limit) (IsErrOf result OpenStore.Failed)
        (R.state rack.old) (R.state rack.new) }
{
    let one = read_used(alloc, rack, limit, 1, begun)?;
    let two = read_used(alloc, rack, limit, 2, begun)?;
    let logs = logs_of(alloc, one.as_slice(), two.as_slice(), begun)?;
    Ok(logs)
}

/// The book of what a rack holds, for a store of this shape whose logs have at most `limit` records, 2 to 2^26; or
/// what is against it.
pub fn read_book<R: Rack>(
    alloc: Global,
    rack: &mut R,
    shape: &Shape,
    limit: u64,
) -> Result<KnownBook, OpenStore>
    requires { limit ≤ 2 ^ 26 }
    ensures book { R.tells →
        IfOk result (λ book. book_in (R.state rack.old).areas shape.now limit ≡ Ok book) }
    ensures fits { IfOk result (λ book. AllByRecursion (λ log. length log.tags ≤ limit) book.logs) }
    ensures few { IfOk result (λ book. length book.roots ≤ limit) }
    ensures objection { R.tells → IfErr result (λ fault.
        Refuses fault (result_err (book_in (R.state rack.old).areas shape.now limit))) }
    ensures same { OnlyRead (R.state rack.old) (R.state rack.new) }
    ensures owes { Owes (3 * most_reads limit + 1) (IsErrOf result OpenStore.Failed)
        (R.state rack.old) (R.state rack.new) }
{
    let size = rack.length(0)?;
    let roots = read_roots(alloc, rack, limit)?;
    let standing = judge_root(alloc, shape, size, &roots)?;
    let logs = read_logs(alloc, rack, limit, &standing.begun)?;
    Ok(KnownBook::of(standing.floor, logs, roots))
}

/// What the book of a store comes to, of 1 to 16 shards and an index below them, whose logs have at most `limit`
/// records, 2 to 2^26; or what is against it. Nothing is written.
pub fn look<R: Rack>(
    alloc: Global,
    rack: &mut R,
    shape: &Shape,
    limit: u64,
) -> Result<Book, OpenStore>
    requires some { 2 ≤ limit }
    requires limit { limit ≤ 2 ^ 26 }
    requires shape { IsShape shape.now }
    ensures book { R.tells →
        IfOk result (λ book. told (book_in (R.state rack.old).areas shape.now limit) ≡ Ok book) }
    ensures objection { R.tells → IfErr result (λ fault.
        Refuses fault (result_err (book_in (R.state rack.old).areas shape.now limit))) }
    ensures same { OnlyRead (R.state rack.old) (R.state rack.new) }

    // It fails only where the rack did.
    ensures owes { Owes (3 * most_reads limit + 1) (IsErrOf result OpenStore.Failed)
        (R.state rack.old) (R.state rack.new) }
{
    let book = read_book(alloc, rack, shape, limit)?;
    Ok(book.summary())
}
