// The queue: items are looked for one by one, so a take costs time by the number of items that are held.
ghost use Rattle.std.specs.Prelude.{◌≡◌, ◌≢◌, ℕ, ◌+◌, ◌<◌, ◌≤◌, false, [], ◌∷◌, ◌++◌, length, take, Some, None, vec_len, IfSome, IfNone, OnOk, OnErr, IsTrue, ◌↔◌, IsPermutation, position};
ghost use Rattle.due_queue.specs.Destinations.{IsWanted, same_dest};
ghost use Rattle.due_queue.specs.Inside.{HasFound};
ghost use Rattle.due_queue.specs.Queues.{IsDue, IsFirstDue, NoneDue, NotAfter, room_for, spare};
ghost use Rattle.due_queue.specs.declared.queue.Next.{Next};

use crate::Dest;
use mix_base::Memory;
use std::alloc::Global;
use std::marker::Model;

/// When an item is due, its number and its destination. Of two items the first is that with the lesser pair of `due` and
/// `number`.
#[derive(Clone, Copy, Debug, PartialEq, Eq)]
pub struct Next {
    /// A moment in milliseconds.
    pub due: u64,
    pub number: u64,
    pub dest: Dest,
}

/// An item that a queue may hold.
pub trait Due: Drop {
    /// When it is due, its number and its destination.
    ghost told: { Self → Next };

    /// The moment at which it is due, in milliseconds.
    fn due(&self) -> u64
        ensures { result ≡ (told self.now).due };

    /// Its number.
    fn number(&self) -> u64
        ensures { result ≡ (told self.now).number };

    /// Where it goes.
    fn dest(&self) -> Dest
        ensures { result ≡ (told self.now).dest };
}

/// A bag of items, with room for some more for each destination.
#[derive(Drop)]
pub struct DueQueue<T: Due> {
    items: Vec<T>,
    // The destinations that room is kept for, one entry for each item.
    reserved: Vec<Dest>,
}

impl<T: Due> Model for DueQueue<T> {
    ghost use Rattle.std.specs.Prelude.{◌+◌, ◌≤◌, vec_len, vec_capacity};
    ghost use Rattle.due_queue.specs.Queues.{QueueState};

    ghost Value = { QueueState T };

    ghost view = { λ q. record { items = q.items.items; kept = q.reserved.items } };

    ghost invariant = { λ q. vec_len q.items + vec_len q.reserved ≤ vec_capacity q.items };
}

impl<T: Due> DueQueue<T> {
    /// Holds nothing, and has no room. Takes no memory.
    pub fn new(alloc: Global) -> DueQueue<T>
        ensures { result ≡ record { items = []; kept = [] } }
    {
        DueQueue {
            items: Vec::new(alloc),
            reserved: Vec::new(alloc),
        }
    }

    /// Makes room for an item of this destination, unless there is some.
    pub fn reserve(&mut self, alloc: Global, dest: &Dest) -> Result<(), Memory>
        ensures ok { OnOk result (1 ≤ spare self.new dest.now) }
        ensures items { self.new.items ≡ self.old.items }
        ensures no_lower { (other : Dest) → spare self.old other ≤ spare self.new other }
        ensures refused { OnErr result (self.new ≡ self.old) }
    {
        let _ = alloc;
        if let Some(_place) = entry_for(&self.reserved, dest) {
            return Ok(());
        }
        self.items.reserve(self.reserved.len() + 1)?;
        self.reserved.push(*dest)?;
        Ok(())
    }

    /// Puts an item into the bag. Asks room for its destination, and uses it up. Takes no memory.
    pub fn put(&mut self, item: T)
        requires { 1 ≤ spare self.old (T.told item).dest }
        ensures items { IsPermutation (self.old.items ++ item ∷ []) self.new.items }
        ensures spare { spare self.old (T.told item).dest ≤ spare self.new (T.told item).dest + 1 }
        ensures others { (other : Dest) → same_dest (T.told item).dest other ≡ false →
            spare self.new other ≡ spare self.old other }
    {
        remove_entry(&mut self.reserved, &item.dest());
        self.items.push_reserved(item);
    }

    /// Takes the first item for this destination that is due at the moment, in milliseconds; none where none is due.
    /// Takes no memory.
    pub fn take(&mut self, dest: &Dest, moment: u64) -> Option<T>
        ensures taken { IfSome result (IsFirstDue T.told (Some dest.now) moment self.old.items) }
        ensures rest { IfSome result
            (λ item. IsPermutation self.old.items (item ∷ self.new.items)) }
        ensures none { IfNone result (NoneDue T.told (Some dest.now) moment self.old.items) }
        ensures unchanged { IfNone result (self.new ≡ self.old) }
    {
        let place = first_due(&self.items, Some(*dest), moment)?;
        Some(self.items.swap_remove(place))
    }

    /// When the first item that is due at the moment is due, its number and its destination, over all destinations.
    pub fn next_due(&self, moment: u64) -> Option<Next>
        ensures first { IfSome result
            (λ next. (item : T) × IsFirstDue T.told None moment self.now.items item ×
            (next ≡ T.told item)) }
        ensures none { IfNone result (NoneDue T.told None moment self.now.items) }
    {
        let place = first_due(&self.items, None, moment)?;
        Some(next_of(&self.items[place]))
    }

    /// Lets go of all items, and of the room for others. Takes no memory.
    pub fn clear(&mut self)
        ensures { self.new ≡ record { items = []; kept = [] } }
    {
        self.items.clear();
        self.reserved.clear();
    }

    /// How many items it holds.
    pub fn len(&self) -> usize
        ensures { result ≡ length self.now.items }
    {
        self.items.len()
    }

    /// Whether it holds no item.
    pub fn is_empty(&self) -> bool
        ensures { IsTrue result ↔ (self.now.items ≡ []) }
    {
        self.items.is_empty()
    }
}

/// Removes an entry for the destination. Asks that there is one.
fn remove_entry(reserved: &mut Vec<Dest>, dest: &Dest)
    requires { 1 ≤ room_for reserved.old.items dest.now }
    ensures room { room_for reserved.old.items dest.now ≡ room_for reserved.new.items dest.now + 1 }
    ensures others { (other : Dest) → same_dest dest.now other ≡ false →
        room_for reserved.new.items other ≡ room_for reserved.old.items other }
    ensures fewer { vec_len reserved.new + 1 ≡ vec_len reserved.old }
{
    if let Some(place) = entry_for(reserved, dest) {
        reserved.swap_remove(place);
    }
}

/// The place of an entry for the destination. There is one where there is room for it.
fn entry_for(reserved: &[Dest], dest: &Dest) -> Option<usize>
    ensures place { result ≡ position (λ kept. same_dest kept dest.now) reserved.now }
    ensures room { IfSome result (λ place. 1 ≤ room_for reserved.now dest.now) }
    ensures none { IfNone result (room_for reserved.now dest.now ≡ 0) }
{
    first_same(reserved, dest)
}

/// The first place of the destination among these.
fn first_same(reserved: &[Dest], dest: &Dest) -> Option<usize>
    ensures { result ≡ position (λ kept. same_dest kept dest.now) reserved.now }
{
    reserved.iter().position(|kept| kept.is_same(dest))
}

/// What an item tells.
fn next_of<T: Due>(item: &T) -> Next
    ensures { result ≡ T.told item.now }
{
    Next {
        due: item.due(),
        number: item.number(),
        dest: item.dest(),
    }
}

/// The place of the first item that is due at the moment, for the destination wanted or for any.
fn first_due<T: Due>(items: &[T], wanted: Option<Dest>, moment: u64) -> Option<usize>
    ensures { HasFound T.told wanted moment items.now items.now result }
{
    let mut found = None;
    'items: for place in 0..items.len() {
        found = first_of(items, wanted, moment, found, place);
    }
    found
}

/// The place of the first due item, where one more is looked at.
fn first_of<T: Due>(
    items: &[T],
    wanted: Option<Dest>,
    moment: u64,
    found: Option<usize>,
    place: usize,
) -> Option<usize>
    requires place { place < length items.now }
    requires found { HasFound T.told wanted moment items.now (take place items.now) found }
    ensures { HasFound T.told wanted moment items.now (take (place + 1) items.now) result }
{
    let item = &items[place];
    if !is_due(item, wanted, moment) {
        return found;
    }
    match found {
        Some(first) if !is_before(item, &items[first]) => found,
        _ => Some(place),
    }
}

/// Whether an item is due at the moment, for the destination wanted or for any.
fn is_due<T: Due>(item: &T, wanted: Option<Dest>, moment: u64) -> bool
    ensures { IsTrue result ↔ IsDue wanted moment (T.told item.now) }
{
    item.due() <= moment && is_wanted(wanted, &item.dest())
}

/// Whether the destination is the one that is wanted, where one is.
fn is_wanted(wanted: Option<Dest>, dest: &Dest) -> bool
    ensures { IsTrue result ↔ IsWanted wanted dest.now }
{
    match wanted {
        Some(wanted) => wanted.is_same(dest),
        None => true,
    }
}

/// Whether the first item comes before the second.
fn is_before<T: Due>(first: &T, second: &T) -> bool
    ensures before { IsTrue result → NotAfter (T.told first.now) (T.told second.now) }
    ensures after { result ≡ false → NotAfter (T.told second.now) (T.told first.now) }
{
    let (due, other) = (first.due(), second.due());
    due < other || due == other && first.number() < second.number()
}
