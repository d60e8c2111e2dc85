// The standard streams as source and sinks. They tell nothing of what they carry, and count each of their failures.
ghost use Rattle.std.specs.Prelude.{None};

use crate::transfers::read_again;
use mix_base::{Failed, PutFault, Sink, Source};
use std::alloc::Global;
use std::io;
use std::io::{Eprint, Input, Print};
use std::marker::PhantomData;

/// Standard input.
#[derive(Drop)]
pub struct StdSource<'a, H: Input> {
    of: PhantomData<&'a H>,
    reader: H::Reader,
    faults: u64,
}

impl<'a, H: Input> StdSource<'a, H> {
    pub fn new(rt: &'a H) -> StdSource<'a, H> {
        StdSource {
            of: PhantomData,
            reader: rt.reader(),
            faults: 0,
        }
    }
}

impl<'a, H: Input> Source for StdSource<'a, H> {
    ghost left = { λ _. None };

    ghost faults = { λ source. source.faults };

    fn read(&mut self, buf: &mut [u8]) -> Result<usize, Failed> {
        match read_again(&mut self.reader, buf) {
            Ok(count) => Ok(count),
            Err(_) => {
                self.faults = self.faults.saturating_add(1);
                Err(Failed)
            }
        }
    }
}

/// Standard output.
#[derive(Drop)]
pub struct StdSink<'a, H: Print> {
    rt: &'a H,
    faults: u64,
}

impl<'a, H: Print> StdSink<'a, H> {
    pub fn new(rt: &'a H) -> StdSink<'a, H> {
        StdSink { rt, faults: 0 }
    }
}

impl<'a, H: Print> Sink for StdSink<'a, H> {
    ghost given = { λ _. None };

    ghost faults = { λ sink. sink.faults };

    fn put(&mut self, _alloc: Global, bytes: &[u8]) -> Result<(), PutFault> {
        match self.rt.write_all(bytes) {
            Ok(()) => Ok(()),
            Err(_) => {
                self.faults = self.faults.saturating_add(1);
                Err(PutFault::WriteFault)
            }
        }
    }
}

/// Standard error. It takes text: bytes that aren't UTF-8 are a fault, and nothing of them is written.
#[derive(Drop)]
pub struct StdErr<'a, H: Eprint> {
    rt: &'a H,
    faults: u64,
}

impl<'a, H: Eprint> StdErr<'a, H> {
    pub fn new(rt: &'a H) -> StdErr<'a, H> {
        StdErr { rt, faults: 0 }
    }
}

impl<'a, H: Eprint> Sink for StdErr<'a, H> {
    ghost given = { λ _. None };

    ghost faults = { λ sink. sink.faults };

    fn put(&mut self, _alloc: Global, bytes: &[u8]) -> Result<(), PutFault> {
        match print_error(self.rt, bytes) {
            Ok(()) => Ok(()),
            Err(_) => {
                self.faults = self.faults.saturating_add(1);
                Err(PutFault::WriteFault)
            }
        }
    }
}

fn print_error<H: Eprint>(rt: &H, bytes: &[u8]) -> io::Result<()> {
    match str::from_utf8(bytes) {
        Ok(text) => rt.eprint(text),
        Err(_) => Err(io::Error::from(io::ErrorKind::InvalidData)),
    }
}
