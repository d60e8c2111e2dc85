// What a seat at the lock's table knows. It is there for proofs alone: no value of these types is made.
use std::collections::LinkedList;

pub(crate) enum Role {
    // It knows nothing any more: another seat took its view in.
    Spent,
    Rests,
    Turns,
}

pub(crate) struct View<E> {
    pub(crate) role: Role,
    // Of the first seat alone: the least caller's number that isn't given away yet.
    pub(crate) next: Option<u64>,
    pub(crate) callers: LinkedList<(u64, LinkedList<E>)>,
    pub(crate) origin: LinkedList<LinkedList<u64>>,
    pub(crate) seen: LinkedList<E>,
    // What the seats had seen whose views it took in.
    pub(crate) heard: LinkedList<LinkedList<E>>,
}
