// What is told of a book.

/// What a store's book comes to.
#[derive(Clone, Copy, Debug, PartialEq, Eq)]
pub struct Book {
    /// The least epoch whose tags are still taken.
    pub floor: u64,
    /// How many different pairs of epoch and tag are spent at or above the floor.
    pub spent: u64,
    /// How many records the root has.
    pub root: u64,
}
