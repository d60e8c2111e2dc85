// Values that know how they began and what was done to them since: the turn lock hands such a value from
// caller to caller. Origin and story are there for contracts alone; only the story's length is computed.
ghost use Rattle.std.specs.Prelude.{◌≡◌, ℕ, List, length};

/// A value that knows its origin, and its story: the list of the entries made since, each by one caller.
/// `Entry` is plain data; no value of it need be made.
pub trait Storied: Drop {
    type Entry;

    /// What the value began as, spelled in lists of numbers.
    ghost origin: { Self → List (List ℕ) };

    /// The entries made since, in their order.
    ghost story: { Self → List Self.Entry };

    /// The number of the caller who made an entry.
    ghost caller: { Self.Entry → ℕ };

    /// How many entries the story has.
    fn entries(&self) -> u64
        ensures { result ≡ length (story self.now) };
}
