// The program `mix`: the standard streams, disks in memory and those in the files of its folder are handed to one call,
// which decides all.
#![tactic(auto)]

ghost use Rattle.std.specs.Prelude.{◌≡◌, IfOk, length};

mod kept;
mod program;
#[cfg(test)]
mod tests;

use kept::kept_disks;
use mix_base::Memory;
use mix_top::Bench;
use program::{run, run_without_disks};
use real_edges::{FileRack, StdErr, StdSink, StdSource};
use replay_disk::MemRack;
use std::alloc::Global;
use std::env;
use std::fs::Files;
use std::process::ExitCode;

fn main(rt: HostRuntime) -> ExitCode {
    let mut input = StdSource::new(&rt);
    let mut output = StdSink::new(&rt);
    let mut errors = StdErr::new(&rt);
    let Ok(mut bench) = bench_of(&rt, rt.alloc()) else {
        return ExitCode::from(run_without_disks(rt.alloc(), &mut errors).code);
    };
    let ended = run(
        rt.alloc(),
        env::args(&rt),
        &mut input,
        &mut output,
        &mut errors,
        &mut bench,
    );
    ExitCode::from(ended.code)
}

/// The laboratory disks in memory, and the kept ones in the files of the folder.
fn bench_of<'a, H: Files>(
    rt: &'a H,
    alloc: Global,
) -> Result<Bench<MemRack, FileRack<'a, H>>, Memory>
    ensures lab { IfOk result (λ bench. length bench.lab.items ≡ 16) }
    ensures kept { IfOk result (λ bench. length bench.kept.items ≡ 32) }
{
    Bench::beside(alloc, kept_disks(rt, alloc)?)
}
