// The pending writes of a rack in memory, in the order in which they were made, each with its area and place.
ghost use Rattle.std.specs.Prelude.{◌≡◌, ℕ, ◌+◌, ◌-◌, ◌<◌, ◌≤◌, [], ◌∷◌, ◌++◌, length, filter, not, ◌==◌, min, vec_capacity, vec_len, OnOk};
ghost use Rattle.replay_disk.specs.Kept.{Writes, write_at};
ghost use Rattle.replay_disk.specs.MemoryRack.{Write, without_area};
ghost use Rattle.replay_disk.specs.WriteLog.{writes_of, AreMarked};

use mix_base::Memory;
use std::alloc::Global;
use std::marker::Model;

/// Where a write went, and where in the log its bytes stand.
#[derive(Clone, Copy)]
struct Mark {
    area: u8,
    place: usize,
    from: usize,
    size: usize,
}

#[derive(Drop)]
pub struct WriteLog {
    marks: Vec<Mark>,
    bytes: Vec<u8>,
}

impl Model for WriteLog {
    ghost use Rattle.std.specs.Prelude.{◌-◌, min, vec_len, vec_capacity};
    ghost use Rattle.replay_disk.specs.Kept.{Writes};
    ghost use Rattle.replay_disk.specs.WriteLog.{writes_of, AreMarked};

    ghost Value = { Writes };

    ghost view = { λ w.
        record {
          list = writes_of w.bytes.items w.marks.items;
          spare = min (vec_capacity w.marks - vec_len w.marks)
              (vec_capacity w.bytes - vec_len w.bytes);
        } };

    ghost invariant = { λ w. AreMarked w.bytes.items w.marks.items };
}

impl WriteLog {
    /// No writes. Takes no memory.
    pub fn new(alloc: Global) -> WriteLog
        ensures { result.list ≡ [] }
    {
        WriteLog {
            marks: Vec::new(alloc),
            bytes: Vec::new(alloc),
        }
    }

    pub fn len(&self) -> usize
        ensures { result ≡ length self.now.list }
    {
        self.marks.len()
    }

    /// The area of a write.
    pub fn area(&self, i: usize) -> u8
        requires { i < length self.now.list }
        ensures { result ≡ (write_at i self.now.list).area }
    {
        self.marks[i].area
    }

    /// Where a write went.
    pub fn place(&self, i: usize) -> usize
        requires { i < length self.now.list }
        ensures { result ≡ (write_at i self.now.list).place }
    {
        self.marks[i].place
    }

    /// What a write wrote.
    pub fn bytes(&self, i: usize) -> &[u8]
        requires { i < length self.now.list }
        ensures { result.now ≡ (write_at i self.now.list).bytes }
    {
        let mark = self.marks[i];
        &self.bytes[mark.from..mark.from + mark.size]
    }

    /// Room for writes of this many bytes more.
    pub fn reserve(&mut self, bytes: usize) -> Result<(), Memory>
        ensures ok { OnOk result (bytes ≤ self.new.spare) }
        ensures no_lower { self.old.spare ≤ self.new.spare }
        ensures list { self.new.list ≡ self.old.list }
    {
        self.marks.reserve(bytes)?;
        self.bytes.reserve(bytes)?;
        Ok(())
    }

    /// One write more, of at least one byte, for which there is room.
    pub fn push(&mut self, area: u8, place: usize, bytes: &[u8])
        requires some { 0 < length bytes.now }
        requires room { length bytes.now ≤ self.old.spare }
        ensures list { self.new.list
            ≡ self.old.list ++ (record { area = area; place = place; bytes = bytes.now }) ∷ [] }
        ensures spare { self.old.spare ≤ self.new.spare + length bytes.now }
    {
        let mark = Mark {
            area,
            place,
            from: self.bytes.len(),
            size: bytes.len(),
        };
        add(&mut self.marks, &mut self.bytes, mark, bytes);
    }

    /// The writes of an area are no longer pending. The bytes go once no write is.
    pub fn remove(&mut self, area: u8)
        ensures list { self.new.list ≡ without_area area self.old.list }
        ensures spare { self.old.spare ≤ self.new.spare }
    {
        keep_others(&mut self.marks, area);
        if self.marks.is_empty() {
            self.bytes.clear();
        }
    }

    /// No write is pending.
    pub fn clear(&mut self)
        ensures list { self.new.list ≡ [] }
        ensures spare { self.old.spare ≤ self.new.spare }
    {
        self.marks.clear();
        self.bytes.clear();
    }
}

/// A mark and its bytes, for which there is room.
fn add(marks: &mut Vec<Mark>, kept: &mut Vec<u8>, mark: Mark, bytes: &[u8])
    requires mark_room { vec_len marks.old < vec_capacity marks.old }
    requires room { vec_len kept.old + length bytes.now ≤ vec_capacity kept.old }
    ensures marks { marks.new.items ≡ marks.old.items ++ mark ∷ [] }
    ensures bytes { kept.new.items ≡ kept.old.items ++ bytes.now }
    ensures marks_capacity { vec_capacity marks.old ≤ vec_capacity marks.new }
    ensures capacity { vec_capacity kept.old ≤ vec_capacity kept.new }
{
    let _ = marks.push(mark);
    let _ = kept.extend_from_slice(bytes);
}

fn keep_others(marks: &mut Vec<Mark>, area: u8)
    ensures items { marks.new.items ≡ filter (λ mark. not (mark.area == area)) marks.old.items }
    ensures fewer { vec_len marks.new ≤ vec_len marks.old }
    ensures capacity { vec_capacity marks.old ≤ vec_capacity marks.new }
{
    marks.retain(|mark| mark.area != area);
}
