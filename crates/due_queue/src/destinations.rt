// Where a held packet goes.
ghost use Rattle.std.specs.Prelude.{◌≡◌};
ghost use Rattle.due_queue.specs.Destinations.{same_dest};

/// Where a held packet goes: to the hop of an id, or to a recipient of this node.
#[derive(Clone, Copy, Debug, PartialEq, Eq)]
pub enum Dest {
    Hop([u8; 32]),
    Local,
}

impl Dest {
    /// Whether both are the same.
    pub fn is_same(&self, other: &Dest) -> bool
        ensures { result ≡ same_dest self.now other.now }
    {
        match (self, other) {
            (Dest::Hop(id), Dest::Hop(other)) => id == other,
            (Dest::Local, Dest::Local) => true,
            _ => false,
        }
    }
}
