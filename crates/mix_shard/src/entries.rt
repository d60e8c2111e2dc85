// What a tale is made of: an entry for each call that did something to the shard, and beside a claim the packet.
ghost use Rattle.std.specs.Prelude.{◌≡◌};
ghost use Rattle.mix_shard.specs.Entries.{with_answer};

use due_queue::Dest;
use mix_base::Bytes;
use std::snapshot::Snapshot;

/// What a claim or a rotation answered.
#[derive(Clone, Copy, Debug, PartialEq, Eq)]
pub enum Answer {
    /// It was done.
    Taken,
    /// The packet's epoch is below the floor.
    Retired { floor: u64 },
    /// The pair of epoch and tag was claimed before.
    Spent,
    /// There is no room for the tag.
    ShardFull,
    /// There is no room for the floor.
    RootFull,
    /// The disk failed.
    Disk,
    /// The disk holds what no store of this shape has written.
    Journal,
}

/// What a caller did to a shard. Moments are in milliseconds.
#[derive(Clone, Copy, Debug, PartialEq, Eq)]
pub enum Entry {
    /// The tag of a packet was claimed, which arrived with this number at the moment `at`.
    Claim {
        caller: u32,
        number: u64,
        epoch: u64,
        tag: [u8; 32],
        at: u64,
        answer: Answer,
    },
    /// A held packet of this number was taken out for a destination at a moment.
    Take {
        caller: u32,
        number: u64,
        dest: Dest,
        moment: u64,
    },
    /// The epochs below the least that is live at the moment were retired.
    Rotate {
        caller: u32,
        moment: u64,
        answer: Answer,
    },
    /// The caller claims no more.
    Done {
        caller: u32,
    },
    /// The journal was opened, to a book of this floor and so many different spent pairs.
    Reopened {
        caller: u32,
        floor: u64,
        spent: u64,
    },
}

/// An entry, and beside a claim the packet that was claimed, which is there for contracts alone and takes no bytes.
#[derive(Drop)]
pub struct Told {
    pub entry: Entry,
    pub packet: Option<Snapshot<Bytes>>,
}

impl Entry {
    /// The entry with this answer in place of another, where it has one.
    fn with_answer(self, answer: Answer) -> Entry
        ensures { result ≡ with_answer answer self }
    {
        match self {
            Entry::Claim {
                caller,
                number,
                epoch,
                tag,
                at,
                answer: _,
            } => Entry::Claim {
                caller,
                number,
                epoch,
                tag,
                at,
                answer,
            },
            Entry::Rotate {
                caller,
                moment,
                answer: _,
            } => Entry::Rotate {
                caller,
                moment,
                answer,
            },
            other => other,
        }
    }
}

impl Told {
    /// The same with this answer in place of another, where the entry has one.
    pub(crate) fn with_answer(self, answer: Answer) -> Told
        ensures { result ≡ record self { entry = with_answer answer self.entry } }
    {
        Told {
            entry: self.entry.with_answer(answer),
            packet: self.packet,
        }
    }
}
