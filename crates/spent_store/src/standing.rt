// What the records of a root say: the floor and the begun epochs, or the first record that can't be.
ghost use Rattle.std.specs.Prelude.{◌≡◌, ℕ, ◌+◌, ◌*◌, ◌^◌, ◌<◌, ◌≤◌, ◌==◌, ◌||◌, Bool, List, []};
ghost use Rattle.std.specs.Prelude.{◌∷◌, length, None, IfOk, OnOk, IfErr};
ghost use Rattle.std.specs.List.{list_any};
ghost use Rattle.std.specs.Result.{result_err};
ghost use Rattle.spent_store.specs.Faults.{Objects};
ghost use Rattle.spent_store.specs.Books as books;
ghost use Rattle.spent_store.specs.Root as root_meaning;
ghost use Rattle.spent_store.specs.Root.{begun_of, floor_of};

use crate::faults::{Objection, OpenStore};
use crate::root::RootRecord;
use mix_base::Shape;
use std::alloc::{AllocError, Global};

/// What a root says: the floor, and the begun epochs that aren't below it.
#[derive(Drop)]
pub struct Standing {
    pub floor: u64,
    pub begun: Vec<u64>,
}

/// Whether a value is that of 1 to 16 shards and an index below them.
fn is_shape(value: u64) -> bool
    ensures { result ≡ root_meaning.is_shape (root_meaning.value_shape value) }
{
    let shards = value / 256;
    (1..=16).contains(&shards) && value % 256 < shards
}

/// Whether an epoch is among those that have begun.
fn has_begun(begun: &[u64], epoch: u64) -> bool
    ensures { result ≡ list_any (λ other. other == epoch) begun.now }
{
    begun.iter().any(|other| *other == epoch)
}

/// Whether an epoch is the floor or the one above it.
fn may_begin(floor: u64, epoch: u64) -> bool
    ensures { result ≡ (epoch == floor || epoch == floor + 1) }
{
    epoch == floor || (floor < u64::MAX && epoch == floor + 1)
}

/// Whether a record can't stand where it does, by the records before it.
fn is_amiss(is_first: bool, floor: u64, begun: &[u64], root: &RootRecord) -> bool
    ensures { result ≡ root_meaning.is_amiss_at is_first floor begun.now root.now }
{
    match *root {
        RootRecord::Made(value) => !is_first || !is_shape(value),
        _ if is_first => true,
        RootRecord::Begin(epoch) => has_begun(begun, epoch) || !may_begin(floor, epoch),
        RootRecord::Floor(epoch) => epoch <= floor,
        RootRecord::Other(..) => true,
    }
}

/// The floor after a record.
fn floor_after(floor: u64, root: &RootRecord) -> u64
    ensures { result ≡ root_meaning.floor_after floor root.now }
{
    match *root {
        RootRecord::Floor(epoch) => epoch,
        _ => floor,
    }
}

/// The begun epochs after a record.
fn begun_after(alloc: Global, begun: Vec<u64>, root: &RootRecord) -> Result<Vec<u64>, AllocError>
    ensures { IfOk result (λ after. after.items ≡ root_meaning.begun_after begun.items root.now) }
{
    let mut begun = begun;
    match *root {
        RootRecord::Begin(epoch) => {
            begun.push(epoch)?;
            Ok(begun)
        }
        RootRecord::Floor(floor) => begun
            .iter()
            .copied()
            .filter(|epoch| floor <= *epoch)
            .collect(alloc),
        _ => Ok(begun),
    }
}

/// What the records say, one after the other; or the first that can't be. There are at most 2^26.
fn read_standing(alloc: Global, roots: &[RootRecord]) -> Result<Standing, OpenStore>
    requires { length roots.now ≤ 2 ^ 26 }
    ensures floor { IfOk result (λ standing. standing.floor ≡ floor_of roots.now) }
    ensures begun { IfOk result (λ standing. standing.begun.items ≡ begun_of roots.now) }
    ensures in_order { OnOk result (books.amiss roots.now ≡ None) }
    ensures amiss { IfErr result (λ fault. Objects fault (books.amiss roots.now)) }
{
    let mut floor = 0;
    let mut begun = Vec::new(alloc);
    'reading: for (i, root) in roots.iter().enumerate() {
        if is_amiss(i == 0, floor, &begun, root) {
            let at = 10 * i as u64 + 1;
            return Err(OpenStore::Foreign { area: 0, at });
        }
        floor = floor_after(floor, root);
        begun = begun_after(alloc, begun, root)?;
    }
    Ok(Standing { floor, begun })
}

/// Refuses a root without a record that has more bytes than the writing of the first record leaves, where it has `size`.
fn check_recorded(size: u64, roots: &[RootRecord]) -> Result<(), Objection>
    ensures { result_err result ≡ books.unrecorded size roots.now }
{
    if roots.is_empty() && size > 11 {
        return Err(Objection::Foreign { area: 0, at: 0 });
    }
    Ok(())
}

/// Refuses a root that was made for another shape. The records are in order.
fn check_shape(shape: &Shape, roots: &[RootRecord]) -> Result<(), Objection>
    requires { books.amiss roots.now ≡ None }
    ensures { result_err result ≡ books.other_shape shape.now roots.now }
{
    match roots.first() {
        Some(RootRecord::Made(value))
            if *value != u64::from(shape.shards) * 256 + u64::from(shape.index) => {
            let stored = Shape {
                shards: (*value / 256) as u8,
                index: (*value % 256) as u8,
            };
            Err(Objection::OtherShape { stored })
        }
        _ => Ok(()),
    }
}

/// What the records of a root say, at most 2^26, where it has `size` bytes; or the first thing that is against them.
pub fn judge_root(
    alloc: Global,
    shape: &Shape,
    size: u64,
    roots: &[RootRecord],
) -> Result<Standing, OpenStore>
    requires { length roots.now ≤ 2 ^ 26 }
    ensures floor { IfOk result (λ standing. standing.floor ≡ floor_of roots.now) }
    ensures begun { IfOk result (λ standing. standing.begun.items ≡ begun_of roots.now) }
    ensures recorded { OnOk result (books.unrecorded size roots.now ≡ None) }
    ensures in_order { OnOk result (books.amiss roots.now ≡ None) }
    ensures shaped { OnOk result (books.other_shape shape.now roots.now ≡ None) }
    ensures objection { IfErr result (λ fault.
        Objects fault (books.first_of (books.unrecorded size roots.now
        ∷ books.amiss roots.now ∷ books.other_shape shape.now roots.now ∷ []))) }
{
    check_recorded(size, roots)?;
    let standing = read_standing(alloc, roots)?;
    check_shape(shape, roots)?;
    Ok(standing)
}
