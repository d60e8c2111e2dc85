// A rack is a disk with three areas that may fail and crash. Its calls say what a read gives, what a crash may
// leave, and what it was at every moment; where a rack doesn't tell its contents, they say nothing of them.
ghost use Rattle.std.specs.Prelude.{◌≡◌, ℕ, ◌+◌, ◌-◌, ◌^◌, ◌<◌, ◌≤◌, [], ◌∷◌, ◌++◌, length, Some, None, IfOk, OnOk, OnErr, IsErr};
ghost use Rattle.replay_disk.specs.Disk.{Range, RackState, area_at, contents_of, with_bytes, ContentsAreImages, IsTried, IsSynced, IsCrashed, ChangesOnly, OnlyRead, Owes, armed_at, one_less, ReadsFrom};
ghost use Rattle.replay_disk.specs.Moments.{PassesOne};

use mix_base::{Failed, Memory};

/// A disk with the areas 0, 1 and 2. Each call that names an area asks for one of these. `length`, `read`, `write` and
/// `sync` are its calls that are counted: each owes that it fails only where the count of faults rises, and always
/// where the rack is armed at it.
pub trait Rack: Drop {
    /// Whether contracts are told what the areas hold.
    ghost tells: { Type 0 };

    /// Its areas now and at all earlier moments, its faults, its room, its calls, and what `arm` and `crash` were
    /// given. Of a rack that doesn't tell, the areas and the room mean nothing.
    ghost state: { Self → RackState };

    /// How many bytes the area has.
    fn length(&mut self, area: u8) -> Result<u64, Failed>
        requires { area < 3 }
        ensures answer { tells → IfOk result (λ n. n ≡ length (contents_of area (state self.old))) }
        ensures same { OnlyRead (state self.old) (state self.new) }
        ensures images { tells → ContentsAreImages (state self.new).areas }
        ensures armed { (state self.old).left ≡ Some 0 → IsErr result }
        ensures countdown { (state self.new).left ≡ one_less (state self.old).left }
        ensures owes { Owes 1 (IsErr result) (state self.old) (state self.new) };

    /// Reads from a place into the front of the buffer, and answers how many bytes: fewer than it holds only at the
    /// area's end. Asks that place and length together are at most 2^40.
    fn read(&mut self, area: u8, at: u64, buf: &mut [u8]) -> Result<usize, Failed>
        requires area { area < 3 }
        requires range { at + length buf.old ≤ 2 ^ 40 }
        ensures within { IfOk result (λ n. n ≤ length buf.old) }
        ensures bytes { tells →
            IfOk result (ReadsFrom at (contents_of area (state self.old)) buf.old buf.new) }
        ensures same { OnlyRead (state self.old) (state self.new) }
        ensures images { tells → ContentsAreImages (state self.new).areas }
        ensures armed { (state self.old).left ≡ Some 0 → IsErr result }
        ensures countdown { (state self.new).left ≡ one_less (state self.old).left }
        ensures owes { Owes 1 (IsErr result) (state self.old) (state self.new) };

    /// Writes at a place at most the area's length, over what is there and past the end. Asks at least one byte,
    /// room for all of them, and that place and length together are at most 2^40. Until the area's next sync a
    /// crash may leave anything in the range, also where the write failed.
    fn write(&mut self, area: u8, at: u64, bytes: &[u8]) -> Result<(), Failed>
        requires area { area < 3 }
        requires some { 0 < length bytes.now }
        requires range { at + length bytes.now ≤ 2 ^ 40 }
        requires place { tells → at ≤ length (contents_of area (state self.old)) }
        requires room { tells → length bytes.now ≤ (state self.old).room }
        ensures written { tells →
            OnOk result (contents_of area (state self.new)
            ≡ with_bytes at bytes.now (contents_of area (state self.old))) }
        ensures tried { tells →
            ChangesOnly area (IsTried (record { place = at; size = length bytes.now }))
            (state self.old).areas (state self.new).areas }
        ensures moment { tells → PassesOne (state self.old) (state self.new) }
        ensures room { tells → (state self.new).room + length bytes.now ≡ (state self.old).room }
        ensures images { tells → ContentsAreImages (state self.new).areas }
        ensures armed { (state self.old).left ≡ Some 0 → IsErr result }
        ensures countdown { (state self.new).left ≡ one_less (state self.old).left }
        ensures owes { Owes 1 (IsErr result) (state self.old) (state self.new) };

    /// Brings the area's contents to the disk: afterwards a crash leaves these. One that failed changes nothing.
    fn sync(&mut self, area: u8) -> Result<(), Failed>
        requires { area < 3 }
        ensures synced { tells →
            OnOk result (ChangesOnly area IsSynced (state self.old).areas (state self.new).areas) }
        ensures failed { tells → OnErr result ((state self.new).areas ≡ (state self.old).areas) }
        ensures moment { tells → PassesOne (state self.old) (state self.new) }
        ensures room { tells → (state self.new).room ≡ (state self.old).room }
        ensures images { tells → ContentsAreImages (state self.old).areas }
        ensures armed { (state self.old).left ≡ Some 0 → IsErr result }
        ensures countdown { (state self.new).left ≡ one_less (state self.old).left }
        ensures owes { Owes 1 (IsErr result) (state self.old) (state self.new) };

    /// Makes room for this many bytes of writes to come, whatever their areas. Changes nothing else.
    fn room(&mut self, bytes: u64) -> Result<(), Memory>
        ensures made { tells → OnOk result (bytes ≤ (state self.new).room) }
        ensures no_lower { tells → (state self.old).room ≤ (state self.new).room }
        ensures same { state self.new ≡ record (state self.old) { room = (state self.new).room } };
}

/// A rack that can be told to fail and to crash.
pub trait CrashRack: Rack {
    /// The call of this number, counted from now from 1, and all after it fail until the next crash. Where it is armed
    /// already, the nearer call decides. Asks at least 1.
    fn arm(&mut self, calls: u64)
        requires { 0 < calls }
        ensures { Self.state self.new ≡ record (Self.state self.old) {
          left = armed_at calls (Self.state self.old).left;
          arms = (Self.state self.old).arms ++ calls ∷ [];
        } };

    /// Crashes: each area has one of its images as contents, and nothing is pending. The pick says which. The rack is no
    /// longer armed. Any room may be left.
    fn crash(&mut self, pick: u64)
        ensures image { Self.tells →
            IsCrashed (Self.state self.old).areas (Self.state self.new).areas }
        ensures moment { Self.tells → PassesOne (Self.state self.old) (Self.state self.new) }
        ensures faults { (Self.state self.new).faults ≡ (Self.state self.old).faults }
        ensures calls { (Self.state self.new).calls ≡ (Self.state self.old).calls }
        ensures left { (Self.state self.new).left ≡ None }
        ensures arms { (Self.state self.new).arms ≡ (Self.state self.old).arms }
        ensures crashes { (Self.state self.new).crashes
            ≡ (Self.state self.old).crashes ++ pick ∷ [] };
}
