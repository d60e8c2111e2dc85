// A bell on which threads sleep until something has happened. Whoever is to sleep reads it first and then looks; a ring
// after the reading ends the sleep, or keeps it from beginning.
use std::sync::Wait;
use std::sync::atomic::AtomicU64;
use std::sync::atomic::Ordering::SeqCst;
use std::time::Duration;

/// A bell on which threads sleep.
#[derive(Drop)]
pub struct Bell {
    rung: AtomicU64,
    // How many may be asleep. Whoever rings reads it to know whether to wake one.
    sleepers: AtomicU64,
}

impl Bell {
    /// It hasn't rung, and nobody sleeps.
    pub fn new() -> Bell {
        Bell {
            rung: AtomicU64::new(0),
            sleepers: AtomicU64::new(0),
        }
    }

    // How often it has rung.
    pub(crate) fn heard(&self) -> u64 {
        self.rung.load(SeqCst)
    }

    pub(crate) fn ring(&self) {
        self.rung.fetch_add(1, SeqCst);
        if self.sleepers.load(SeqCst) > 0 {
            self.rung.wake_one();
        }
    }

    // Rings for all that sleep.
    pub(crate) fn ring_all(&self) {
        self.rung.fetch_add(1, SeqCst);
        if self.sleepers.load(SeqCst) > 0 {
            self.rung.wake_all();
        }
    }

    // Sleeps for so many milliseconds at most, unless it has rung more often than was heard.
    pub(crate) fn doze<R: Wait>(&self, rt: &R, heard: u64, most: u64) {
        self.sleepers.fetch_add(1, SeqCst);
        self.rung.park_timeout(
            rt,
            (heard & 0xffff_ffff) as u32,
            Duration::from_millis(most),
        );
        self.sleepers.fetch_sub(1, SeqCst);
    }

    // Sleeps, unless it has rung more often than was heard. It may end early.
    pub(crate) fn sleep<R: Wait>(&self, rt: &R, heard: u64) {
        self.sleepers.fetch_add(1, SeqCst);
        self.rung.park(rt, (heard & 0xffff_ffff) as u32);
        self.sleepers.fetch_sub(1, SeqCst);
    }
}
