// The disks that outlast a call: files of the folder that the program runs in.
ghost use Rattle.std.specs.Prelude.{◌≡◌, ◌+◌, ◌<◌, IfOk, length, nat_lt, if◌then◌else◌};

use mix_base::Memory;
use real_edges::FileRack;
use std::alloc::Global;
use std::fs::Files;

/// How many there are.
const KEPT_DISKS: u32 = 32;

/// The kept disks, over the files of the folder `.`. Nothing is opened yet.
pub fn kept_disks<'a, H: Files>(rt: &'a H, alloc: Global) -> Result<Vec<FileRack<'a, H>>, Memory>
    ensures { IfOk result (λ disks. length disks.items ≡ 32) }
{
    let mut disks = Vec::new(alloc);
    for place in 0..KEPT_DISKS {
        disks.push(FileRack::new(rt, alloc, ".", shard_number(place)))?;
    }
    Ok(disks)
}

/// The number in the names of a kept disk's files: that of its place below 16, and behind 320 from there on, so that they
/// are two sets of one node among those of twenty.
fn shard_number(place: u32) -> u32
    requires { place < 32 }
    ensures { result ≡ (if nat_lt place 16 then place else 304 + place) }
{
    if place < 16 { place } else { 304 + place }
}
