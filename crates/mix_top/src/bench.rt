// The disks that a command may use.
ghost use Rattle.std.specs.Prelude.{◌≡◌, ◌+◌, ◌≤◌, length, take, drop, map, ◌++◌, [], IfOk, IfSome, IfNone, vec_len, vec_capacity};
ghost use Rattle.mix_top.specs.Headline.{AreKnown};

use mix_base::Memory;
use replay_disk::{MemRack, Rack};
use std::alloc::Global;

/// The laboratory disks, which `drive` and `storm` work on, and those that are kept, which they leave alone and `look` reads.
#[derive(Drop)]
pub struct Bench<C, K> {
    pub lab: Vec<C>,
    pub kept: Vec<K>,
}

/// How many disks of each kind a bench has.
const LAB_RACKS: usize = 16;

const KEPT_RACKS: usize = 32;

impl Bench<MemRack, MemRack> {
    /// 16 laboratory disks and 32 kept ones in memory, all empty.
    pub fn in_memory(alloc: Global) -> Result<Bench<MemRack, MemRack>, Memory>
        ensures lab { IfOk result (λ bench. length bench.lab.items ≡ 16) }
        ensures kept { IfOk result (λ bench. length bench.kept.items ≡ 32) }
        ensures known { IfOk result (λ bench.
            AreKnown ⟦<MemRack as Rack>⟧.tells (map ⟦<MemRack as Rack>⟧.state bench.lab.items)) }
    {
        Bench::beside(alloc, memory_racks(alloc, KEPT_RACKS)?)
    }
}

impl<K: Rack> Bench<MemRack, K> {
    /// 16 laboratory disks in memory, all empty, beside these that are kept.
    pub fn beside(alloc: Global, kept: Vec<K>) -> Result<Bench<MemRack, K>, Memory>
        ensures lab { IfOk result (λ bench. length bench.lab.items ≡ 16) }
        ensures kept { IfOk result (λ bench. bench.kept ≡ kept) }
        ensures known { IfOk result (λ bench.
            AreKnown ⟦<MemRack as Rack>⟧.tells (map ⟦<MemRack as Rack>⟧.state bench.lab.items)) }
    {
        let lab = memory_racks(alloc, LAB_RACKS)?;
        Ok(Bench { lab, kept })
    }
}

/// So many empty disks in memory.
fn memory_racks(alloc: Global, count: usize) -> Result<Vec<MemRack>, Memory>
    ensures count { IfOk result (λ racks. length racks.items ≡ count) }
    ensures known { IfOk result (λ racks.
        AreKnown ⟦<MemRack as Rack>⟧.tells (map ⟦<MemRack as Rack>⟧.state racks.items)) }
{
    let mut racks = Vec::new(alloc);
    for _ in 0..count {
        racks.push(MemRack::new(alloc))?;
    }
    Ok(racks)
}

/// Takes the first so many disks away. On want of memory all stay.
pub fn take_racks<C: Drop>(alloc: Global, racks: &mut Vec<C>, count: u8) -> Option<Vec<C>>
    requires { count ≤ length racks.old.items }
    ensures taken { IfSome result (λ taken. taken.items ≡ take count racks.old.items) }
    ensures others { IfSome result (λ taken. racks.new.items ≡ drop count racks.old.items) }
    ensures room { IfSome result (λ taken. vec_len racks.new + count ≤ vec_capacity racks.new) }
    ensures none { IfNone result (racks.new ≡ racks.old) }
{
    let Ok(mut taken) = Vec::with_capacity(alloc, count as usize) else {
        return None;
    };
    racks.reverse();
    for _ in 0..count {
        match racks.pop() {
            Some(rack) => taken.push_reserved(rack),
            None => unreachable!(),
        }
    }
    racks.reverse();
    Some(taken)
}

/// Puts disks back in front of the others. Takes no memory.
pub fn give_back<C: Drop>(racks: &mut Vec<C>, mut taken: Vec<C>)
    requires { vec_len racks.old + vec_len taken ≤ vec_capacity racks.old }
    ensures { racks.new.items ≡ taken.items ++ racks.old.items }
{
    racks.reverse();
    while let Some(rack) = taken.pop() {
        racks.push_reserved(rack);
    }
    racks.reverse();
}
