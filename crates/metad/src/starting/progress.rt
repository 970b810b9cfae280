//! How long a start takes, and how far it is.

use crate::telling::{tell_progress, tell_started};
use std::time::Instant;

// A start of so many seconds tells how far it is, and how long it took.
const LONG: u64 = 1;

// It tells that again after so many seconds.
const AGAIN: u64 = 5;

// How often a start reads the journal: it compares sums, executes lines, and looks behind the last
// group.
const READINGS: u64 = 3;

/// A start as its file sees it: when it began, when a line on standard error said so last, and how
/// often the file was read from its front on.
#[derive(Clone, Copy, Drop)]
pub struct Progress {
    began: Option<Instant>,
    said: Option<Instant>,
    readings: u64,
    // The first reading looks whether there is a line, and doesn't count.
    looks_first: bool,
    // When the file was read last, and the furthest place of it.
    last: Option<Instant>,
    furthest: usize,
}

// The whole seconds since a moment; none where the clock fails.
fn since(rt: &HostRuntime, moment: Option<Instant>) -> u64 {
    let Some(moment) = moment else {
        return 0;
    };
    match moment.elapsed(rt) {
        Ok(time) => time.as_secs(),
        Err(_) => 0,
    }
}

impl Progress {
    /// A start that begins now. A second file is looked at first, whether it has a line.
    pub fn begin(rt: &HostRuntime, is_second: bool) -> Progress {
        Progress {
            began: Instant::now(rt).ok(),
            said: None,
            readings: 0,
            looks_first: is_second,
            last: None,
            furthest: 0,
        }
    }

    // A reading that begins at the front of the file.
    fn count(&mut self, at: usize) {
        if at > 0 {
            return;
        }
        if self.looks_first {
            self.looks_first = false;
            return;
        }
        self.readings = self.readings.saturating_add(1);
    }

    // Whether it is time to tell how far the start is.
    fn is_due(&self, rt: &HostRuntime) -> bool {
        if self.readings > READINGS || since(rt, self.began) < LONG {
            return false;
        }
        self.said.is_none() || since(rt, self.said) >= AGAIN
    }

    /// The file is read at a place, and has this size. If it is time, tells so.
    pub fn read(&mut self, rt: &HostRuntime, path: &str, at: usize, size: usize) {
        self.count(at);
        self.last = Instant::now(rt).ok();
        self.furthest = self.furthest.max(at);
        if !self.is_due(rt) {
            return;
        }
        tell_progress(rt, path, since(rt, self.began), self.readings, at, size);
        self.said = Instant::now(rt).ok();
    }

    /// The start has ended. Tells how long it took, if it took long.
    pub fn end(&self, rt: &HostRuntime, path: &str) {
        let seconds = since(rt, self.began);
        if seconds >= LONG {
            tell_started(rt, path, seconds);
        }
    }

    // How many milliseconds the start took.
    fn millis(&self) -> Option<u64> {
        let time = self.last?.duration_since(self.began?);
        let whole = time.as_secs().saturating_mul(1_000);
        Some(whole.saturating_add(u64::from(time.subsec_millis())))
    }

    /// How many milliseconds a checkpoint may take of a journal with this number of bytes: 1.3 times
    /// as long as a start with them, judged by this start. None where it read less than a MiB.
    pub fn renewal(&self, bytes: usize) -> Option<u64> {
        let mebibytes = self.furthest as u64 >> 20;
        let all = self.millis()?.saturating_mul(bytes as u64 >> 20);
        all.saturating_mul(13)
            .checked_div(mebibytes.saturating_mul(10))
    }
}
