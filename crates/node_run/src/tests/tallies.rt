// What the tales of a node say that was done.
use due_queue::Dest;
use mix_shard::{Answer, Entry, Held, Shard};
use prim_std::LabSuite;
use replay_disk::MemRack;

/// How many claims were accepted, how many found their pair spent, and how many were refused otherwise; and how many packets
/// were taken out for recipients, and how many for a next hop.
#[derive(Clone, Copy, Debug, PartialEq, Eq)]
pub struct Tally {
    pub accepted: u64,
    pub spent: u64,
    pub refused: u64,
    pub local: u64,
    pub onward: u64,
}

impl Tally {
    fn note(&mut self, entry: &Entry) {
        match entry {
            Entry::Claim {
                answer: Answer::Taken,
                ..
            } => self.accepted = self.accepted.saturating_add(1),
            Entry::Claim {
                answer: Answer::Spent,
                ..
            } => self.spent = self.spent.saturating_add(1),
            Entry::Claim { .. } => self.refused = self.refused.saturating_add(1),
            Entry::Take {
                dest: Dest::Local,
                ..
            } => self.local = self.local.saturating_add(1),
            Entry::Take { .. } => self.onward = self.onward.saturating_add(1),
            _ => {}
        }
    }

    /// Of all these shards.
    pub fn of(shards: &[Shard<MemRack, LabSuite>]) -> Tally {
        let mut tally = Tally {
            accepted: 0,
            spent: 0,
            refused: 0,
            local: 0,
            onward: 0,
        };
        for shard in shards {
            for entry in shard.tale() {
                tally.note(entry);
            }
        }
        tally
    }
}

/// Whether one of the packets has this tag.
pub fn has_tag(packets: &[Held<LabSuite>], tag: &[u8; 32]) -> bool {
    for packet in packets {
        if packet.tag() == tag {
            return true;
        }
    }
    false
}
