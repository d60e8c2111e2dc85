// What a store knows of its book, in memory. Tags are kept in the order of their logs, and looked for one by one.
ghost use Rattle.std.specs.Prelude.{◌≡◌, ℕ, ◌+◌, ◌^◌, ◌≤◌, ◌∷◌, length, map, sum_by, vec_len};
ghost use Rattle.std.specs.List.{list_any};
ghost use Rattle.std.specs.Str.{bytes_eq};
ghost use Rattle.spent_store.specs.Books.{EpochLog, StoredBook, begun};
ghost use Rattle.spent_store.specs.Books as books;
ghost use Rattle.spent_store.specs.Root.{AreNear};

use crate::root::RootRecord;
use crate::summary::Book;
use std::marker::Model;

/// Whether a tag is among these.
pub fn has_tag(tags: &[[u8; 32]], tag: &[u8; 32]) -> bool
    ensures { result ≡ list_any (λ other. bytes_eq other tag.now) tags.now }
{
    tags.iter().any(|other| other == tag)
}

/// How many different tags one tag more makes: none where it is among the others.
fn added_by(tag: &[u8; 32], others: &[[u8; 32]]) -> u64
    ensures value { result + books.distinct_count others.now
        ≡ books.distinct_count (tag.now ∷ others.now) }
    ensures bound { result ≤ 1 }
{
    if has_tag(others, tag) { 0 } else { 1 }
}

/// How many different tags there are.
pub fn distinct_count(tags: &[[u8; 32]]) -> u64
    ensures value { result ≡ books.distinct_count tags.now }
    ensures bound { result ≤ length tags.now }
{
    let mut count = 0;
    let mut rest = tags;
    'counting: while let Some((tag, others)) = rest.split_first() {
        count += added_by(tag, others);
        rest = others;
    }
    count
}

/// An epoch that has begun, with the tags spent in it, at most 2^26.
#[derive(Drop)]
pub struct KnownLog {
    epoch: u64,
    tags: Vec<[u8; 32]>,
}

impl Model for KnownLog {
    ghost Value = { EpochLog };

    ghost view = { λ log. record { epoch = log.epoch; tags = log.tags.items } };

    ghost invariant = { λ log. vec_len log.tags ≤ 2 ^ 26 };
}

impl KnownLog {
    /// An epoch's log of these tags.
    pub fn of(epoch: u64, tags: Vec<[u8; 32]>) -> KnownLog
        requires { vec_len tags ≤ 2 ^ 26 }
        ensures { result ≡ record { epoch = epoch; tags = tags.items } }
    {
        KnownLog { epoch, tags }
    }

    /// How many different tags are spent in the epoch.
    fn spent(&self) -> u64
        ensures value { result ≡ books.distinct_count self.now.tags }
        ensures bound { result ≤ 2 ^ 26 }
    {
        distinct_count(&self.tags)
    }
}

/// A book: the floor, the logs of the begun epochs that aren't below it, and the records of the root.
#[derive(Drop)]
pub struct KnownBook {
    floor: u64,
    logs: Vec<KnownLog>,
    roots: Vec<RootRecord>,
}

impl Model for KnownBook {
    ghost Value = { StoredBook };

    ghost view = { λ book. record {
      floor = book.floor;
      logs = book.logs.items;
      roots = book.roots.items;
    } };

    ghost invariant = { λ book. AreNear book.floor (map (λ log. log.epoch) book.logs.items)
        × (length book.logs.items ≤ 2) };
}

impl KnownBook {
    ghost use Rattle.spent_store.specs.Seen as seen;

    /// The book of these parts. Asks logs of the floor and the epoch above it alone, each once.
    pub fn of(floor: u64, logs: Vec<KnownLog>, roots: Vec<RootRecord>) -> KnownBook
        requires near { AreNear floor (map (λ log. log.epoch) logs.items) }
        requires two { length logs.items ≤ 2 }
        ensures { result ≡ record { floor = floor; logs = logs.items; roots = roots.items } }
    {
        KnownBook { floor, logs, roots }
    }

    /// What the book comes to.
    pub fn summary(&self) -> Book
        ensures { result ≡ seen.summary self.now }
    {
        Book {
            floor: self.floor,
            spent: known_spent(&self.logs),
            root: self.roots.len() as u64,
        }
    }
}

/// How many different tags are spent in these logs.
fn known_spent(logs: &[KnownLog]) -> u64
    requires { length logs.now ≤ 2 }
    ensures { result ≡ sum_by (λ log. books.distinct_count log.tags) logs.now }
{
    let mut spent = 0;
    'counting: for log in logs {
        spent += log.spent();
    }
    spent
}
