// The edge over the real things: files of a folder, sockets of this machine, the system's clock; and over readers and
// runtimes that are interrupted, give a part, or fail.
ghost use Rattle.std.specs.Prelude.{◌<◌, ◌≤◌, ◌^◌, length};

use crate::transfers::{read_again, read_whole};
use crate::{FileRack, StdErr, StdSink, StdSource, SystemClock, TcpIn, TcpNet, TcpOut};
use mix_base::{Failed, PutFault, Sink, Source};
use mix_links::{Arrived, Clock, LineFailed, LinkIn, LinkOut, Net};
use replay_disk::Rack;
use std::alloc::{Allocator, Global};
use std::fmt::Display;
use std::io::{BufRead, Eprint, Input, Lines, Print, Read};
use std::net::TcpStream;
use std::test::Fail;
use std::thread::{Threads, join};
use std::time::{Duration, SystemTime, UNIX_EPOCH};
use std::{fs, io, net, time};

const FOLDER: &str = "real_edges_files";

/// Appends the bytes to an area, and brings them to the disk.
fn append<R: Rack>(rack: &mut R, area: u8, bytes: &[u8]) -> Result<(), Failed>
    requires area { area < 3 }
    requires some { 0 < length bytes.now }
    requires short { length bytes.now ≤ 2 ^ 30 }
{
    if rack.room(bytes.len() as u64).is_err() {
        return Err(Failed);
    }
    match rack.length(area) {
        Ok(at) if at <= 1 << 30 => {
            rack.write(area, at, bytes)?;
            rack.sync(area)
        }
        _ => Err(Failed),
    }
}

// The same in another thread.
fn append_beside<T: Threads, R: Rack + Send>(rt: &T, mut rack: R) -> Result<(), Failed> {
    join(rt, move || append(&mut rack, 2, b"xyz"), || ()).0
}

#[test]
fn a_rack_is_its_three_files(rt: HostRuntime) -> Result<(), Fail> {
    let alloc = rt.alloc();
    let _ = fs::remove_dir_all(&rt, FOLDER);
    let mut rack = FileRack::new(&rt, alloc, FOLDER, 7);
    assert!(rt; rack.length(0).is_err());
    fs::create_dir(&rt, FOLDER)?;
    assert!(rt; rack.length(0) == Ok(0));
    assert!(rt; append(&mut rack, 0, b"abcd").is_ok());
    assert!(rt; rack.write(0, 2, b"CDEF").is_ok());
    assert!(rt; append_beside(&rt, rack).is_ok());
    let mut other = FileRack::new(&rt, alloc, FOLDER, 7);
    let mut buf = [0; 8];
    assert!(rt; other.read(0, 3, &mut buf) == Ok(3));
    assert_eq!(rt; buf, *b"DEF\0\0\0\0\0");
    assert!(rt; other.length(2) == Ok(3));
    let root = fs::read(&rt, "real_edges_files/7.0")?;
    assert_eq!(rt; root.as_slice(), b"abCDEF".as_slice());
    let one = fs::read(&rt, "real_edges_files/7.1")?;
    assert!(rt; one.is_empty());
    let two = fs::read(&rt, "real_edges_files/7.2")?;
    assert_eq!(rt; two.as_slice(), b"xyz".as_slice());
    fs::remove_dir_all(&rt, FOLDER)?;
    Ok(())
}

const COUNT: u64 = 10_000;

// Sends the numbers below COUNT, and answers how many calls failed.
fn send_all<O: LinkOut>(mut link: O) -> u64 {
    let mut failed = 0u64;
    for number in 0..COUNT {
        if link.send(&number.to_be_bytes()).is_err() {
            failed = failed.saturating_add(1);
        }
    }
    if link.finish().is_err() {
        failed = failed.saturating_add(1);
    }
    failed
}

// How many of the numbers from 0 on arrived in order, and what came then.
fn receive_all<I: LinkIn>(mut link: I) -> (u64, Arrived) {
    let mut buf = [0; 8];
    for number in 0..u64::MAX {
        let arrived = link.next_packet(&mut buf);
        if arrived != Arrived::Packet || u64::from_be_bytes(buf) != number {
            return (number, arrived);
        }
    }
    (u64::MAX, Arrived::Failed)
}

// How many sends failed, how many packets came in order, and what came then, over one line of a net.
fn across<R: Threads, N: Net>(
    rt: &R,
    alloc: Global,
    net: &mut N,
) -> Result<(u64, (u64, Arrived)), LineFailed> {
    let (onto, into) = net.line(alloc)?;
    Ok(join(rt, move || send_all(onto), move || receive_all(into)))
}

#[test]
fn a_line_carries_packets_between_threads(rt: HostRuntime) -> Result<(), Fail> {
    let mut net = TcpNet::new(&rt);
    let Ok((failed, (count, then))) = across(&rt, rt.alloc(), &mut net) else {
        return Err(Fail::from("no line"));
    };
    assert_eq!(rt; (failed, count), (0, 10_000));
    assert_eq!(rt; then, Arrived::End { cut: 0 });
    Ok(())
}

#[test]
fn an_end_cuts_off_a_part_and_a_closed_peer_is_a_failure(rt: HostRuntime) -> Result<(), Fail> {
    let mut net = TcpNet::new(&rt);
    let (Ok((mut onto, mut into)), Ok((mut lone, gone))) = (
        net.line(rt.alloc()),
        net.line(rt.alloc()),
    ) else {
        return Err(Fail::from("no line"));
    };
    let mut buf = [0; 8];
    assert!(rt; onto.send(b"12345").is_ok());
    assert!(rt; onto.finish().is_ok());
    assert_eq!(rt; into.next_packet(&mut buf), Arrived::End { cut: 5 });
    assert_eq!(rt; into.next_packet(&mut buf), Arrived::End { cut: 0 });
    assert!(rt; onto.send(b"12345").is_err());
    assert!(rt; onto.finish().is_err());
    drop(gone);
    let mut failed = false;
    for _ in 0..1000 {
        failed = lone.send(&[7; 1000]).is_err();
    }
    assert!(rt; failed);
    assert!(rt; lone.send(b"12345").is_err());
    Ok(())
}

/// A clock that gives one time, or none.
#[derive(Clone, Copy, Drop)]
struct Stopped {
    milliseconds: Option<u64>,
}

impl time::Clock for Stopped {
    fn monotonic(&self) -> io::Result<Duration> {
        self.since_1970()
    }

    fn since_1970(&self) -> io::Result<Duration> {
        match self.milliseconds {
            Some(milliseconds) => Ok(Duration::from_millis(milliseconds)),
            None => Err(io::Error::from(io::ErrorKind::Unsupported)),
        }
    }
}

/// The moment of a clock.
fn moment<C: Clock>(clock: &C) -> u64 {
    clock.now()
}

// The moments that two threads read from one clock.
fn two_moments<T: Threads, C: Clock + Sync>(rt: &T, clock: &C) -> (u64, u64) {
    join(rt, || moment(clock), || moment(clock))
}

#[test]
fn a_clock_gives_milliseconds_since_1970(rt: HostRuntime) -> Result<(), Fail> {
    let before = SystemTime::now(&rt)?;
    let (one, other) = two_moments(&rt, &SystemClock::new(&rt));
    let now = one.min(other);
    let after = SystemTime::now(&rt)?;
    let Some(now) = UNIX_EPOCH.checked_add(Duration::from_millis(now)) else {
        return Err(Fail::from("no such time"));
    };
    assert!(rt; now <= after);
    assert!(rt; now.checked_add(Duration::from_millis(1)) > Some(before));
    let last = (1 << 60) - 1;
    for (time, moment_then) in [(Some(last), last), (Some(last + 6), 5), (None, 0)] {
        assert_eq!(rt;
            moment(&SystemClock::new(&Stopped { milliseconds: time })),
            moment_then
        );
    }
    Ok(())
}

/// A reader that gives one byte at a time, and is interrupted before each.
#[derive(Drop)]
struct Slow {
    left: u8,
    interrupted: bool,
}

impl Read for Slow {
    fn read(&mut self, buf: &mut [u8]) -> io::Result<usize> {
        self.interrupted = !self.interrupted;
        if self.interrupted {
            return Err(io::Error::from(io::ErrorKind::Interrupted));
        }
        if self.left == 0 || buf.is_empty() {
            return Ok(0);
        }
        buf[0] = self.left;
        self.left -= 1;
        Ok(1)
    }
}

#[test]
fn a_read_goes_on_to_the_end(rt: HostRuntime) -> Result<(), Fail> {
    let mut slow = Slow {
        left: 7,
        interrupted: false,
    };
    let mut buf = [0; 4];
    assert_eq!(rt; read_whole(&mut slow, &mut buf)?, 4);
    assert_eq!(rt; buf, [7, 6, 5, 4]);
    assert_eq!(rt; read_again(&mut slow, &mut buf)?, 1);
    assert_eq!(rt; read_whole(&mut slow, &mut buf)?, 2);
    assert_eq!(rt; buf, [2, 1, 5, 4]);
    assert_eq!(rt; read_whole(&mut slow, &mut buf)?, 0);
    Ok(())
}

/// A runtime whose streams fail.
#[derive(Clone, Copy, Drop)]
struct Broken;

fn failure() -> io::Error {
    io::Error::from(io::ErrorKind::BrokenPipe)
}

impl Read for Broken {
    fn read(&mut self, _buf: &mut [u8]) -> io::Result<usize> {
        Err(failure())
    }
}

impl BufRead for Broken {
    fn fill_buf(&mut self) -> io::Result<&[u8]> {
        Err(failure())
    }

    fn consume(&mut self, _amount: usize) {}
}

impl Input for Broken {
    type Reader = Broken;

    fn read_line<A: Allocator + Clone>(&self, _buf: &mut String<A>) -> io::Result<usize> {
        Err(failure())
    }

    fn lines<A: Allocator>(&self, alloc: A) -> Lines<Broken, A> {
        self.reader().lines(alloc)
    }

    fn reader(&self) -> Broken {
        Broken
    }
}

impl Print for Broken {
    fn print<D: Display + Drop>(&self, _value: D) -> io::Result<()> {
        Err(failure())
    }

    fn println<D: Display + Drop>(&self, _value: D) -> io::Result<()> {
        Err(failure())
    }

    fn write_all(&self, _bytes: &[u8]) -> io::Result<()> {
        Err(failure())
    }
}

impl Eprint for Broken {
    fn eprint<D: Display + Drop>(&self, _value: D) -> io::Result<()> {
        Err(failure())
    }

    fn eprintln<D: Display + Drop>(&self, _value: D) -> io::Result<()> {
        Err(failure())
    }
}

/// What a source answers to a read.
fn taken<I: Source>(source: &mut I) -> Result<usize, Failed> {
    source.read(&mut [0; 8])
}

/// What a sink answers to these bytes.
fn given<O: Sink>(sink: &mut O, alloc: Global, bytes: &[u8]) -> Result<(), PutFault> {
    sink.put(alloc, bytes)
}

#[test]
fn a_stream_s_failure_is_a_fault(rt: HostRuntime) -> Result<(), Fail> {
    let alloc = rt.alloc();
    assert!(rt; given(&mut StdSink::new(&rt), alloc, b"").is_ok());
    assert!(rt; given(&mut StdErr::new(&rt), alloc, b"").is_ok());
    assert!(rt; given(&mut StdErr::new(&rt), alloc, &[0xff]) == Err(PutFault::WriteFault));
    assert!(rt; taken(&mut StdSource::new(&Broken)).is_err());
    assert!(rt; given(&mut StdSink::new(&Broken), alloc, b"ab") == Err(PutFault::WriteFault));
    assert!(rt; given(&mut StdErr::new(&Broken), alloc, b"ab") == Err(PutFault::WriteFault));
    Ok(())
}
