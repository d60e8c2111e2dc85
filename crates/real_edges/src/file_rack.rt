// A disk over three files. Each call of it is answered, or it failed and is counted.
ghost use Rattle.std.specs.Prelude.{◌≡◌, length, IfOk, IsErr, Ok};
ghost use Rattle.replay_disk.specs.Disk.{Owes};
ghost use Rattle.real_edges.specs.Counts.{untold};

use crate::area_files::AreaFiles;
use mix_base::{Failed, History, Memory};
use replay_disk::Rack;
use std::alloc::Global;
use std::fs::Files;
use std::io;

/// How many calls were made, which takes no bytes, and how many of them failed.
#[derive(Drop)]
struct Counts {
    made: History<()>,
    faults: u64,
}

impl Counts {
    // One call more, and what it comes to.
    fn answer<T: Drop>(&mut self, came: io::Result<T>) -> Result<T, Failed>
        ensures value { IfOk result (λ value. came ≡ Ok value) }
        ensures owes { Owes 1 (IsErr result)
            (untold (length self.old.made.items) self.old.faults)
            (untold (length self.new.made.items) self.new.faults) }
    {
        self.made.push(&());
        match came {
            Ok(value) => Ok(value),
            Err(_) => {
                self.faults = self.faults.saturating_add(1);
                Err(Failed)
            }
        }
    }
}

/// A disk over the files `SHARD.0` to `SHARD.2` of a folder, one for each area. They are opened at its first call, and
/// made if they aren't there. It tells nothing of what they hold.
#[derive(Drop)]
pub struct FileRack<'a, H: Files> {
    files: AreaFiles<'a, H>,
    counts: Counts,
}

impl<'a, H: Files> FileRack<'a, H> {
    /// Has opened nothing, and takes no memory. Calls before the files are open take some for their names, and fail
    /// where it is wanting.
    pub fn new(rt: &'a H, alloc: Global, folder: &'a str, shard: u32) -> FileRack<'a, H> {
        FileRack {
            files: AreaFiles::new(rt, alloc, folder, shard),
            counts: Counts {
                made: History::new(),
                faults: 0,
            },
        }
    }
}

impl<'a, H: Files> Rack for FileRack<'a, H> {
    ghost tells = { ⊥ };

    ghost state = { λ rack. untold (length rack.counts.made.items) rack.counts.faults };

    fn length(&mut self, area: u8) -> Result<u64, Failed> {
        let came = self.files.length(area);
        self.counts.answer(came)
    }

    fn read(&mut self, area: u8, at: u64, buf: &mut [u8]) -> Result<usize, Failed> {
        let came = self.files.read(area, at, buf);
        self.counts.answer(came)
    }

    fn write(&mut self, area: u8, at: u64, bytes: &[u8]) -> Result<(), Failed> {
        let came = self.files.write(area, at, bytes);
        self.counts.answer(came)
    }

    fn sync(&mut self, area: u8) -> Result<(), Failed> {
        let came = self.files.sync(area);
        self.counts.answer(came)
    }

    /// Files need no room of it: it is the system's, and a write for which there is none fails.
    fn room(&mut self, _bytes: u64) -> Result<(), Memory> {
        Ok(())
    }
}
