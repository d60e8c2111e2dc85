// Which shard of how many.
ghost use Rattle.std.specs.Prelude.{◌↔◌, IsTrue};
ghost use Rattle.mix_base.specs.Shards.{IsShape};

/// Which shard of how many: `shards` is 1 to 16, and `index` is below it.
#[derive(Clone, Copy, Debug, PartialEq, Eq)]
pub struct Shape {
    pub shards: u8,
    pub index: u8,
}

impl Shape {
    /// Whether there are 1 to 16 shards, and the index is below their number.
    pub fn is_allowed(&self) -> bool
        ensures { IsTrue result ↔ IsShape self.now }
    {
        1 <= self.shards && self.shards <= 16 && self.index < self.shards
    }
}
