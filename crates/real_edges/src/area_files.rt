// The three files of a rack, each call of which is a call of the system or a few. They are opened at the first call and
// kept open. Opening them ends with a sync of their folder, so what is synced later is on the disk by its name. After a
// failed sync every call fails: the system may say yes to a later sync though it has given up what was written before.
ghost use Rattle.std.specs.Prelude.{◌≡◌, ◌≤◌, length, IfOk, OnErr, Some};
ghost use Rattle.real_edges.specs.Opened.{HasNoFile, file_of};

use crate::transfers::{go_to, read_whole, write_whole};
use std::alloc::Global;
use std::fs::{File, Files, OpenFile, OpenOptions};
use std::io;
use std::io::{Read, Seek, Write};

/// What is known of the files.
#[derive(Drop)]
enum Access<F: Drop> {
    /// Nothing: no call was made yet, or opening them failed.
    Unopened,
    Open { root: F, one: F, two: F },
    /// A sync failed, of a file or of their folder, so what is on the disk isn't known.
    Lost,
}

impl<F: Drop> Access<F> {
    // The file of an area, where they are open.
    fn file(&mut self, area: u8) -> io::Result<&mut F>
        ensures { IfOk result (λ file. file_of area self.old ≡ Some file.now) }
    {
        match self {
            Access::Open { root, one, two } => match area {
                0 => Ok(root),
                1 => Ok(one),
                _ => Ok(two),
            },
            _ => Err(io::Error::from(io::ErrorKind::BrokenPipe)),
        }
    }
}

/// The files `SHARD.0` to `SHARD.2` of a folder.
#[derive(Drop)]
pub(crate) struct AreaFiles<'a, H: Files> {
    rt: &'a H,
    alloc: Global,
    folder: &'a str,
    shard: u32,
    access: Access<H::File>,
}

impl<'a, H: Files> AreaFiles<'a, H> {
    pub(crate) fn new(rt: &'a H, alloc: Global, folder: &'a str, shard: u32) -> AreaFiles<'a, H> {
        AreaFiles {
            rt,
            alloc,
            folder,
            shard,
            access: Access::Unopened,
        }
    }

    /// How many bytes the area's file has.
    pub(crate) fn length(&mut self, area: u8) -> io::Result<u64> {
        self.open()?;
        Ok(self.access.file(area)?.metadata()?.len())
    }

    /// Reads from a place to the buffer's end or the file's, and answers how many bytes.
    pub(crate) fn read(&mut self, area: u8, at: u64, buf: &mut [u8]) -> io::Result<usize>
        ensures { IfOk result (λ count. count ≤ length buf.old) }
    {
        self.open()?;
        read_at(self.access.file(area)?, at, buf)
    }

    /// Writes all of the bytes at a place.
    pub(crate) fn write(&mut self, area: u8, at: u64, bytes: &[u8]) -> io::Result<()> {
        self.open()?;
        write_at(self.access.file(area)?, at, bytes)
    }

    /// Brings the area's file to the disk. One that failed is the last call that isn't refused.
    pub(crate) fn sync(&mut self, area: u8) -> io::Result<()>
        ensures { OnErr result (HasNoFile self.new.access) }
    {
        self.open()?;
        let synced = match self.access.file(area) {
            Ok(file) => file.sync_all(),
            Err(error) => Err(error),
        };
        if synced.is_err() {
            self.access = Access::Lost;
        }
        synced
    }

    // Opens the files if they aren't open, makes those that aren't there, and brings their names to the disk.
    fn open(&mut self) -> io::Result<()>
        ensures { OnErr result (HasNoFile self.new.access) }
    {
        if let Access::Unopened = &self.access {
            let root = self.open_area(0)?;
            let one = self.open_area(1)?;
            let two = self.open_area(2)?;
            let folder = File::open(self.rt, self.folder)?;
            self.access = Access::Lost;
            folder.sync_all()?;
            self.access = Access::Open { root, one, two };
        }
        Ok(())
    }

    // The file of one area, made empty if it isn't there.
    fn open_area(&self, area: u8) -> io::Result<H::File> {
        let (folder, shard) = (self.folder, self.shard);
        let path = format!(in self.alloc; "{folder}/{shard}.{area}")?;
        OpenOptions::new()
            .read(true)
            .write(true)
            .create(true)
            .open(self.rt, path.as_str())
    }
}

// Reads from a place to the buffer's end or the file's, and answers how many bytes.
fn read_at<F: Read + Seek>(file: &mut F, at: u64, buf: &mut [u8]) -> io::Result<usize>
    ensures { IfOk result (λ count. count ≤ length buf.old) }
{
    go_to(file, at)?;
    read_whole(file, buf)
}

// Writes all of the bytes at a place.
fn write_at<F: Write + Seek>(file: &mut F, at: u64, bytes: &[u8]) -> io::Result<()> {
    go_to(file, at)?;
    write_whole(file, bytes)
}
