//! The end of a marking: the deques are drained, and the marks gathered.
ghost use Rattle.std.specs.Prelude.{◌==◌, ◌↔◌, All, IsTrue, IfOk, OnOk, length};
ghost use Rattle.mark_core.specs.Reach.{IsInRange};
ghost use Rattle.meta_types.specs.declared.fault.Fault.TheVariants.{InvalidArgument};
ghost use Rattle.meta_types.specs.Faults.{Refuses, unless};
ghost use Rattle.steal_mark.specs.Team.{IsMarked, IsRest, IsTeam, IsWilling};

use crate::finish::close_all::close_all;
use crate::finish::marks::conclude;
use crate::finish::take_apart::take_apart;
use crate::start::roots::Rest;
use crate::turn::marker::Marker;
use mark_core::{Graph, Marks};
use meta_types::Fault;
use std::alloc::Global;

// None was refused memory.
fn are_willing(markers: &[Marker]) -> bool
    ensures { IsTrue result ↔ All IsWilling markers.now }
{
    for marker in markers {
        if marker.refused {
            return false;
        }
    }
    true
}

/// Scans what the deques still hold, and gives the marks and each worker's list of scanned nodes.
pub fn gather(
    alloc: Global,
    rest: Rest,
    markers: Vec<Marker>,
    graph: &Graph,
) -> Result<(Marks, Vec<Vec<u32>>), Fault>
    requires range { IsInRange graph.now }
    requires rest { IsRest graph.now rest }
    requires team { IsTeam rest markers.items }
    ensures fault { Refuses result (unless (length markers.items == rest.workers) InvalidArgument) }
    ensures willing { OnOk result (All IsWilling markers.items) }
    ensures marked { IfOk result (λ r. IsMarked graph.now rest.workers r.0 r.1.items) }
{
    let Rest {
        claim_table,
        mut seat,
        workers,
    } = rest;
    if markers.len() != workers {
        return Err(Fault::InvalidArgument);
    }
    if !are_willing(markers.as_slice()) {
        return Err(Fault::OutOfMemory);
    }
    let (deques, mut rows, mut lists) = take_apart(alloc, &claim_table, &mut seat, markers)?;
    close_all(
        alloc,
        &claim_table,
        &mut seat,
        deques,
        rows.as_mut_slice(),
        graph,
        lists.as_mut_slice(),
    )?;
    let marks = conclude(
        alloc,
        &claim_table,
        &mut seat,
        rows.as_slice(),
        graph,
        lists.as_slice(),
    )?;
    Ok((marks, lists))
}
