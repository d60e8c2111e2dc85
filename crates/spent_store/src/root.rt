// The records of a root, in which a store writes its shape, its floor and the epochs that it has begun.
ghost use Rattle.std.specs.Prelude.{◌≡◌, ℕ, List};

use mix_base::Shape;

/// A record of the root, of nine bytes: a byte of kind, and a value of eight bytes, the highest first.
#[derive(Clone, Copy, Debug, PartialEq, Eq)]
pub enum RootRecord {
    /// Kind 1: the root was made for this shape, as 256 for each shard, and the index.
    Made(u64),
    /// Kind 2: this epoch has begun.
    Begin(u64),
    /// Kind 3: the floor was raised to this epoch.
    Floor(u64),
    /// Another kind, which no store writes, with its value.
    Other(u8, u64),
}

impl RootRecord {
    ghost use Rattle.spent_store.specs.Root.{root_record, shape_value, spell_root};

    /// The record that nine bytes spell.
    pub fn of(bytes: &[u8; 9]) -> RootRecord
        ensures { result ≡ root_record bytes.now }
    {
        let mut value = [0; 8];
        value.copy_from_slice(&bytes[1..]);
        let value = u64::from_be_bytes(value);
        match bytes[0] {
            1 => RootRecord::Made(value),
            2 => RootRecord::Begin(value),
            3 => RootRecord::Floor(value),
            kind => RootRecord::Other(kind, value),
        }
    }

    /// The first record of a root that is made for a shape.
    pub fn made(shape: &Shape) -> RootRecord
        ensures { result ≡ RootRecord.Made (shape_value shape.now) }
    {
        RootRecord::Made(u64::from(shape.shards) * 256 + u64::from(shape.index))
    }

    /// The nine bytes that spell the record.
    pub fn to_bytes(&self) -> [u8; 9]
        ensures { result ≡ spell_root self.now }
    {
        let (kind, value) = match *self {
            RootRecord::Made(value) => (1, value),
            RootRecord::Begin(value) => (2, value),
            RootRecord::Floor(value) => (3, value),
            RootRecord::Other(kind, value) => (kind, value),
        };
        let mut bytes = [kind; 9];
        bytes[1..].copy_from_slice(&value.to_be_bytes());
        bytes
    }
}
