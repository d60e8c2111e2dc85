// What each caller of a node is, by its number.
ghost use Rattle.std.specs.Prelude.{◌≡◌};
ghost use Rattle.node_run.specs.Roles.{role_of};

/// What a caller of a node is. Places are counted from 0.
#[derive(Clone, Copy, Debug, PartialEq, Eq)]
pub enum Role {
    /// Of an incoming link.
    Listener { place: u32 },
    Worker { place: u32 },
    /// The local connector.
    Keeper,
    /// Of an outgoing link.
    Connector { place: u32 },
    Rotator,
    /// It only ends.
    Spare,
}
