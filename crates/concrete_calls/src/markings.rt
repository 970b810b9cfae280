//! Markings by threads, by any number of workers, also where all have to be at work at once.

use mark_core::{Graph, TargetLists};
use meta_types::Fault;
use std::alloc::{AllocError, Global};
use std::sync::Wait;
use std::sync::atomic::{AtomicU64, Ordering};
use std::thread;
use std::thread::Threads;
use steal_mark::{Gate, OpenGate, mark_workers};

// A root with 64 targets.
fn star(alloc: Global) -> Result<Graph, AllocError> {
    let mut targets = Vec::new(alloc);
    for target in 1..65u32 {
        targets.push(target)?;
    }
    let mut edges = TargetLists::new(alloc);
    edges.push(&targets)?;
    for _ in 0..64 {
        edges.push(&[])?;
    }
    let roots = [0u32].to_vec(alloc)?;
    Ok(Graph { edges, roots })
}

// Whether the lists together hold each number below `count` once, and nothing else.
fn hold_each_once(alloc: Global, lists: &[Vec<u32>], count: usize) -> Result<bool, AllocError> {
    let mut seen = Vec::from_elem(alloc, false, count)?;
    for list in lists {
        for node in list {
            let Some(was) = seen.get_mut(*node as usize) else {
                return Ok(false);
            };
            if *was {
                return Ok(false);
            }
            *was = true;
        }
    }
    Ok(seen.iter().all(|was| *was))
}

// Lets the very first scan pass, and holds each later one until every worker has begun one.
#[derive(Drop)]
struct AllAtOnce {
    // A bit for each worker.
    workers: u64,
    begun: AtomicU64,
    scans: AtomicU64,
    late: AtomicU64,
}

impl Gate for AllAtOnce {
    fn before_scan(&self, worker: usize, _node: u32) {
        if self.scans.fetch_add(1, Ordering::SeqCst) == 0 {
            return;
        }
        self.begun.fetch_or(bit(worker), Ordering::SeqCst);
        for _ in 0..1_000_000u32 {
            if self.have_begun() || self.is_late() {
                return;
            }
            thread::yield_now();
        }
        self.late.store(1, Ordering::SeqCst);
    }
}

impl AllAtOnce {
    fn new(workers: u64) -> AllAtOnce {
        AllAtOnce {
            workers,
            begun: AtomicU64::new(0),
            scans: AtomicU64::new(0),
            late: AtomicU64::new(0),
        }
    }

    fn have_begun(&self) -> bool {
        self.begun.load(Ordering::SeqCst) == self.workers
    }

    fn is_late(&self) -> bool {
        self.late.load(Ordering::SeqCst) == 1
    }
}

fn bit(worker: usize) -> u64 {
    if worker < 16 { 1u64 << worker } else { 0 }
}

// Whether each worker scanned, and all of them at once.
fn meet<R: Threads + Wait + Sync>(
    rt: &R,
    alloc: Global,
    workers: usize,
    bits: u64,
) -> Result<bool, Fault> {
    let graph = star(alloc)?;
    if !graph.is_in_range() {
        return Ok(false);
    }
    let gate = AllAtOnce::new(bits);
    let (_, lists) = mark_workers(rt, alloc, &graph, workers, &gate)?;
    let have_met = !gate.is_late() && gate.have_begun();
    Ok(have_met && hold_each_once(alloc, lists.as_slice(), 65)?)
}

// Whether the star is marked, and nothing else.
fn mark<R: Threads + Wait + Sync>(rt: &R, alloc: Global, workers: usize) -> Result<bool, Fault> {
    let graph = star(alloc)?;
    if !graph.is_in_range() {
        return Ok(false);
    }
    let (marks, lists) = mark_workers(rt, alloc, &graph, workers, &OpenGate)?;
    let are_marked = marks.has(0) && marks.has(64) && !marks.has(65);
    let are_listed = lists.len() == workers && hold_each_once(alloc, lists.as_slice(), 65)?;
    Ok(are_marked && are_listed)
}

/// Marks a star by threads that have to meet, five times for each number of workers, and by
/// threads that needn't.
pub(crate) fn calls<R: Threads + Wait + Sync>(rt: &R, alloc: Global) -> Result<bool, Fault> {
    for (workers, bits) in [(2usize, 0x3u64), (3, 0x7), (8, 0xff), (16, 0xffff)] {
        for _ in 0..5u32 {
            if !meet(rt, alloc, workers, bits)? {
                return Ok(false);
            }
        }
    }
    for workers in [1usize, 2, 8, 16] {
        if !mark(rt, alloc, workers)? {
            return Ok(false);
        }
    }
    Ok(true)
}
