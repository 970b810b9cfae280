//! When what is kept for collections and questions is given up, and what lines do to it.

use crate::line_answer::LineAnswer;
use crate::line_memory::Reserves;
use crate::reserve::{Reserve, Stored, is_listing};
use gc_report::Report;
use meta_types::Workers;
use request_line::Command;
use std::alloc::Global;
use std::sync::ledger::Ledger;
use store_front::{HistoryMode, MemLocked};

/// What is stored.
pub(crate) fn stored_in<L: Ledger, K: HistoryMode>(locked: &MemLocked<L, K>) -> Stored<'_> {
    let records = locked.records();
    Stored {
        tables: &records.tables,
        leases: &records.leases,
        next: records.next,
        blobs: locked.count_blobs(),
        shards: locked.count_shards(),
    }
}

/// Gives up what is kept where the line collects, asks or lists. Answers how many workers collect.
pub(crate) fn release_reserve(
    kept: &mut Reserves,
    alloc: Global,
    stored: &Stored<'_>,
    command: &Command<'_>,
    workers: Workers,
) -> Workers {
    match command {
        Command::Request(request) | Command::Show { request, .. } => {
            if is_listing(request) {
                kept.reserve.release();
            }
            workers
        }
        Command::BackList => {
            kept.reserve.release();
            workers
        }
        _ => {
            kept.room.release(alloc);
            let workers = kept.reserve.workers(alloc, stored, workers);
            kept.reserve.release();
            workers
        }
    }
}

// Takes in what a collection left.
fn settle_collection(reserve: &mut Reserve, stored: &Stored<'_>, report: &Report) {
    reserve.settle(false);
    if !report.dry {
        let objects = report.kept.snapshots.saturating_add(report.kept.ingests);
        reserve.collected(stored, objects);
    }
}

/// Takes in what a line did: an addition, or a collection, after which no object is without a row.
pub(crate) fn settle(reserve: &mut Reserve, stored: &Stored<'_>, answer: &LineAnswer) {
    match answer {
        LineAnswer::Replied(_) => reserve.settle(true),
        LineAnswer::Shown(_, changes) => reserve.settle(*changes),
        LineAnswer::There => reserve.settle(true),
        LineAnswer::Reported(report) => settle_collection(reserve, stored, report.as_ref()),
        LineAnswer::Removed(report) => settle_collection(reserve, stored, report.as_ref()),
        _ => reserve.settle(false),
    }
}
