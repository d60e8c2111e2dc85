// The three areas of a rack in memory with their pending writes. None of these steps can fail, since room for the
// writes was made before; which calls fail is decided above.
ghost use Rattle.std.specs.Prelude.{◌≡◌, ℕ, ◌+◌, ◌-◌, ◌<◌, ◌≤◌, ◌%◌, ◌/◌, ◌^◌, [], ◌∷◌, ◌++◌, length, min, max, OnOk, ◌==◌, if◌then◌else◌};
ghost use Rattle.replay_disk.specs.Disk.{area_at, ReadsFrom};
ghost use Rattle.replay_disk.specs.Kept.{Buffer, write_at};
ghost use Rattle.replay_disk.specs.MemoryRack.{Write, without_area, picked, laid_by};
ghost use Rattle.replay_disk.specs.MemoryDisk.{areas_of, buffer_at, EndBy, IsWritten, IsSettled, OnlyLimit, ChangesBuffer};

use super::memory_area::MemArea;
use super::write_log::WriteLog;
use mix_base::Memory;
use std::alloc::Global;

#[derive(Drop)]
pub struct MemDisk {
    root: MemArea,
    one: MemArea,
    two: MemArea,
    log: WriteLog,
}

impl MemDisk {
    /// At rest, with these contents. Takes no memory.
    pub fn new(alloc: Global, root: Vec<u8>, one: Vec<u8>, two: Vec<u8>) -> MemDisk
        ensures root { IsSettled root.items
            (record { contents = []; synced = []; greatest = 0; limit = 0 }) result.root }
        ensures one { IsSettled one.items
            (record { contents = []; synced = []; greatest = 0; limit = 0 }) result.one }
        ensures two { IsSettled two.items
            (record { contents = []; synced = []; greatest = 0; limit = 0 }) result.two }
        ensures log { result.log.list ≡ [] }
    {
        MemDisk {
            root: MemArea::new(alloc, root),
            one: MemArea::new(alloc, one),
            two: MemArea::new(alloc, two),
            log: WriteLog::new(alloc),
        }
    }

    /// The bytes of an area.
    pub fn bytes(&self, area: u8) -> &[u8]
        ensures { result.now ≡ (buffer_at area self.now).contents }
    {
        match area {
            0 => self.root.bytes(),
            1 => self.one.bytes(),
            _ => self.two.bytes(),
        }
    }

    /// Reads an area from a place into the front of the buffer.
    pub fn read(&self, area: u8, at: u64, buf: &mut [u8]) -> usize
        ensures { ReadsFrom at (buffer_at area self.now).contents buf.old buf.new result }
    {
        match area {
            0 => self.root.read(at, buf),
            1 => self.one.read(at, buf),
            _ => self.two.read(at, buf),
        }
    }

    /// A write to an area, which is done or fails, and is pending either way.
    pub fn write(&mut self, area: u8, place: usize, bytes: &[u8], done: bool)
        requires area { area < 3 }
        requires some { 0 < length bytes.now }
        requires range { place + length bytes.now < 2 ^ 64 }
        requires place { place ≤ length (buffer_at area self.old).contents }
        requires fits { place + length bytes.now ≤ (buffer_at area self.old).limit }
        requires synced { length (buffer_at area self.old).synced
            ≤ (buffer_at area self.old).limit }
        requires room { length bytes.now ≤ self.old.log.spare }
        ensures area { ChangesBuffer area (IsWritten place bytes.now done) self.old self.new }
        ensures list { self.new.log.list
            ≡ self.old.log.list ++ (record { area = area; place = place; bytes = bytes.now }) ∷ [] }
        ensures spare { self.old.log.spare ≤ self.new.log.spare + length bytes.now }
    {
        match area {
            0 => write_area(&mut self.root, place, bytes, done),
            1 => write_area(&mut self.one, place, bytes, done),
            _ => write_area(&mut self.two, place, bytes, done),
        }
        self.log.push(area, place, bytes);
    }

    /// The contents of an area are on the disk, and none of its writes is pending.
    pub fn sync(&mut self, area: u8)
        requires { area < 3 }
        ensures area { ChangesBuffer area
            (IsSettled (buffer_at area self.old).contents) self.old self.new }
        ensures list { self.new.log.list ≡ without_area area self.old.log.list }
        ensures spare { self.old.log.spare ≤ self.new.log.spare }
    {
        match area {
            0 => self.root.settle(),
            1 => self.one.settle(),
            _ => self.two.settle(),
        }
        self.log.remove(area);
    }

    /// Room for this many bytes more, in each area and in the log.
    pub fn reserve(&mut self, bytes: usize) -> Result<(), Memory>
        ensures root { OnlyLimit self.old.root self.new.root }
        ensures one { OnlyLimit self.old.one self.new.one }
        ensures two { OnlyLimit self.old.two self.new.two }
        ensures list { self.new.log.list ≡ self.old.log.list }
        ensures spare { self.old.log.spare ≤ self.new.log.spare }
        ensures root_grows { OnOk result (bytes + self.old.root.greatest ≤ self.new.root.limit) }
        ensures one_grows { OnOk result (bytes + self.old.one.greatest ≤ self.new.one.limit) }
        ensures two_grows { OnOk result (bytes + self.old.two.greatest ≤ self.new.two.limit) }
        ensures log_grows { OnOk result (bytes ≤ self.new.log.spare) }
    {
        reserve_area(&mut self.root, bytes)?;
        reserve_area(&mut self.one, bytes)?;
        reserve_area(&mut self.two, bytes)?;
        self.log.reserve(bytes)
    }

    /// Each area is left as the digits of the pick say, and nothing is pending.
    pub fn crash(&mut self, pick: u64)
        requires root_synced { length self.old.root.synced ≤ length self.old.root.contents }
        requires one_synced { length self.old.one.synced ≤ length self.old.one.contents }
        requires two_synced { length self.old.two.synced ≤ length self.old.two.contents }
        requires root_ends { EndBy 0 self.old.root.limit self.old.log.list }
        requires one_ends { EndBy 1 self.old.one.limit self.old.log.list }
        requires two_ends { EndBy 2 self.old.two.limit self.old.log.list }
        ensures root { IsSettled
            (picked 0 pick self.old.log.list self.old.root.synced) self.old.root self.new.root }
        ensures one { IsSettled
            (picked 1 pick self.old.log.list self.old.one.synced) self.old.one self.new.one }
        ensures two { IsSettled
            (picked 2 pick self.old.log.list self.old.two.synced) self.old.two self.new.two }
        ensures list { self.new.log.list ≡ [] }
        ensures spare { self.old.log.spare ≤ self.new.log.spare }
    {
        crash_area(&mut self.root, 0, &self.log, pick);
        crash_area(&mut self.one, 1, &self.log, pick);
        crash_area(&mut self.two, 2, &self.log, pick);
        self.log.clear();
    }
}

fn write_area(area: &mut MemArea, place: usize, bytes: &[u8], done: bool)
    requires range { place + length bytes.now < 2 ^ 64 }
    requires place { place ≤ length area.old.contents }
    requires fits { place + length bytes.now ≤ area.old.limit }
    requires synced { length area.old.synced ≤ area.old.limit }
    ensures { IsWritten place bytes.now done area.old area.new }
{
    if done {
        area.write(place, bytes);
    }
    area.reach(place + bytes.len());
}

fn reserve_area(area: &mut MemArea, bytes: usize) -> Result<(), Memory>
    ensures same { OnlyLimit area.old area.new }
    ensures grows { OnOk result (bytes + area.old.greatest ≤ area.new.limit) }
{
    match area.greatest().checked_add(bytes) {
        Some(limit) => area.reserve(limit),
        None => Err(Memory),
    }
}

/// What a pick leaves of an area: its pending writes, each by its digit, are laid on what its last sync left.
fn crash_area(area: &mut MemArea, number: u8, log: &WriteLog, pick: u64)
    requires synced { length area.old.synced ≤ length area.old.contents }
    requires ends { EndBy number area.old.limit log.now.list }
    ensures { IsSettled (picked number pick log.now.list area.old.synced) area.old area.new }
{
    area.restore();
    let mut digits = pick;
    for i in 0..log.len() {
        patch_one(area, number, log, i, digits % 3);
        digits /= 3;
    }
    area.settle();
}

/// Write i is laid by its digit, if it went to this area.
fn patch_one(area: &mut MemArea, number: u8, log: &WriteLog, i: usize, digit: u64)
    requires digit { digit < 3 }
    requires index { i < length log.now.list }
    requires ends { EndBy number area.old.limit log.now.list }
    ensures contents { let write = write_at i log.now.list in
        area.new.contents ≡ (if write.area == number
        then laid_by digit write area.old.contents else area.old.contents) }
    ensures limit { area.old.limit ≤ area.new.limit }
{
    if log.area(i) == number {
        patch_by(area, digit, log.place(i), log.bytes(i));
    }
}

/// What a write does to an image by its digit.
fn patch_by(area: &mut MemArea, digit: u64, place: usize, bytes: &[u8])
    requires digit { digit < 3 }
    requires fits { place + length bytes.now ≤ area.old.limit }
    ensures contents { (number : ℕ) →
        area.new.contents
        ≡ laid_by digit
        (record { area = number; place = place; bytes = bytes.now }) area.old.contents }
    ensures limit { area.old.limit ≤ area.new.limit }
{
    match digit {
        0 => {}
        1 => area.patch(place, bytes),
        _ => area.patch_torn(place, bytes),
    }
}
