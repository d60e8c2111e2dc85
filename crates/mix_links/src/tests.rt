// The links in memory, on one thread and between two.
use crate::{Arrived, Clock, LineFailed, LinkIn, LinkOut, ListIn, ListOut, MemNet, Net, StepClock};
use std::alloc::Global;
use std::sync::Wait;
use std::test::Fail;
use std::thread::{Threads, join};

#[test]
fn a_list_gives_its_packets_and_then_the_rest(rt: HostRuntime) -> Result<(), Fail> {
    let mut link = ListIn::new(
        vec![in rt.alloc();
            1, 2, 3, 4, 5, 6, 7, 8, 9, 10, 11, 12, 13, 14, 15, 16, 17, 18, 19, 20, 21, 22,
        ]?,
        vec![in rt.alloc(); 2]?,
    );
    let mut buf = [0; 12];
    assert_eq!(rt; link.next_packet(&mut buf), Arrived::Packet);
    assert_eq!(rt; buf, [1, 2, 3, 4, 5, 6, 7, 8, 9, 10, 11, 12]);
    assert_eq!(rt; link.next_packet(&mut buf), Arrived::Failed);
    assert_eq!(rt; link.next_packet(&mut buf), Arrived::End { cut: 10 });
    assert_eq!(rt; link.next_packet(&mut buf), Arrived::End { cut: 10 });
    Ok(())
}

#[test]
fn a_list_keeps_its_packets_but_for_the_failed(rt: HostRuntime) -> Result<(), Fail> {
    let mut link = ListOut::new(rt.alloc(), vec![in rt.alloc(); 2]?);
    assert!(rt; link.send(&[1, 2]).is_ok());
    assert!(rt; link.send(&[3, 4]).is_err());
    assert!(rt; link.finish().is_ok());
    assert!(rt; link.send(&[5, 6]).is_ok());
    assert_eq!(rt; link.packets().len(), 2);
    assert_eq!(rt; link.packets()[0].as_slice(), [1, 2].as_slice());
    assert_eq!(rt; link.packets()[1].as_slice(), [5, 6].as_slice());
    Ok(())
}

// What two threads read from one clock.
fn read_twice<R: Threads + Sync>(rt: &R, clock: &StepClock) -> (u64, u64) {
    join(rt, || clock.now(), || clock.now())
}

#[test]
fn threads_share_a_clock(rt: HostRuntime) -> Result<(), Fail> {
    let clock = StepClock::new(5);
    let (one, other) = read_twice(&rt, &clock);
    assert_eq!(rt; (one.min(other), one.max(other)), (5, 6));
    assert_eq!(rt; clock.now(), 7);
    Ok(())
}

#[test]
fn a_clock_steps_up_to_the_last_moment(rt: HostRuntime) -> Result<(), Fail> {
    let clock = StepClock::new((1 << 60) - 3);
    assert_eq!(rt; clock.now(), 1_152_921_504_606_846_973);
    assert_eq!(rt; clock.now(), 1_152_921_504_606_846_974);
    assert_eq!(rt; clock.now(), 1_152_921_504_606_846_975);
    assert_eq!(rt; clock.now(), 1_152_921_504_606_846_975);
    Ok(())
}

const COUNT: u64 = 10_000;

// Sends the numbers below COUNT, and answers how many sends failed.
fn send_all<O: LinkOut>(mut link: O) -> u64 {
    let mut failed = 0u64;
    for number in 0..COUNT {
        if link.send(&number.to_be_bytes()).is_err() {
            failed = failed.saturating_add(1);
        }
    }
    if link.finish().is_err() {
        failed = failed.saturating_add(1);
    }
    failed
}

// How many of the numbers from 0 on arrived in order, and what came then.
fn receive_all<I: LinkIn>(mut link: I) -> (u64, Arrived) {
    let mut buf = [0; 8];
    for number in 0..u64::MAX {
        let arrived = link.next_packet(&mut buf);
        if arrived != Arrived::Packet || u64::from_be_bytes(buf) != number {
            return (number, arrived);
        }
    }
    (u64::MAX, Arrived::Failed)
}

// How many sends failed, how many packets came in order, and what came then.
fn across<R: Threads + Wait + Sync>(
    rt: &R,
    alloc: Global,
) -> Result<(u64, (u64, Arrived)), LineFailed> {
    let mut net = MemNet::new(rt, Vec::new(alloc));
    let (onto, into) = net.line(alloc)?;
    Ok(join(rt, move || send_all(onto), move || receive_all(into)))
}

// The same with two lists that belong to one other thread.
fn apart<R: Threads + Sync>(rt: &R, onto: ListOut, into: ListIn) -> (u64, (u64, Arrived)) {
    join(rt, move || (send_all(onto), receive_all(into)), || ()).0
}

#[test]
fn lists_go_to_another_thread(rt: HostRuntime) -> Result<(), Fail> {
    let onto = ListOut::new(rt.alloc(), vec![in rt.alloc(); 3, 10_000]?);
    let into = ListIn::new(
        vec![in rt.alloc(); 0, 0, 0, 0, 0, 0, 0, 0, 0, 0, 0, 0, 0, 0, 0, 1, 7]?,
        Vec::new(rt.alloc()),
    );
    let (failed, (count, then)) = apart(&rt, onto, into);
    assert_eq!(rt; (failed, count), (2, 2));
    assert_eq!(rt; then, Arrived::End { cut: 1 });
    Ok(())
}

#[test]
fn a_line_carries_packets_between_threads(rt: HostRuntime) -> Result<(), Fail> {
    match across(&rt, rt.alloc()) {
        Ok((failed, (count, then))) => {
            assert_eq!(rt; (failed, count), (0, 10_000));
            assert_eq!(rt; then, Arrived::End { cut: 0 });
        }
        Err(_) => return Err(Fail::from("no line")),
    }
    let mut net = MemNet::new(&rt, vec![in rt.alloc(); 2]?);
    assert!(rt; net.line(rt.alloc()).is_ok());
    assert!(rt; matches!(net.line(rt.alloc()), Err(LineFailed::Failed)));
    assert!(rt; net.line(rt.alloc()).is_ok());
    Ok(())
}
