//! The explanation of a row, from borrowed rows.
ghost use Rattle.std.specs.Prelude.{◌≡◌, ◌==◌, [], length, map, None, IfOk, false};
ghost use Rattle.meta_types.specs.Faults.{Refuses};
ghost use Rattle.meta_types.specs.Limits.{is_too_large};
ghost use Rattle.meta_types.specs.Explanations.{Explains, ExplainsLast, IsExplanation};
ghost use Rattle.gc_graph.specs.Built.{AreApart};
ghost use Rattle.gc_graph.specs.Stored.{records_of, IsSmall, AreLent};
ghost use Rattle.explaining.specs.ThingRows.{thing_of};
ghost use Rattle.explaining.specs.LastPaths.{AreRising, IsLastOf};
ghost use Rattle.explaining.specs.Questions.{asked_by};
ghost use Rattle.explaining.specs.Searched.{HasGraph};

mod ends;

use crate::asked::Question;
use crate::explain_rows::ends::past_ends;
use crate::path_search::PathSearch;
use crate::roots::first_root;
use crate::telling::steps_of;
use crate::thing_row::ThingRow;
use gc_graph::{NodeBook, StoreRows, build};
use mark_core::Graph;
use meta_types::{Explanation, Fault, Instant};
use std::alloc::Global;
use std::thread::Threads;

// The first of all shortest paths to the asked row, from the last thing back; no thing where
// no path leads there.
fn first_path<'a>(
    alloc: Global,
    rows: &StoreRows<'a>,
    book: &NodeBook<'_>,
    graph: &Graph,
    question: Question<'_>,
    at: Instant,
) -> Result<Vec<ThingRow<'a>>, Fault>
    requires graph { HasGraph (records_of rows.now) book.now graph.now }
    requires small { IsSmall rows.now }
    ensures fault { Refuses result None }
    ensures ok { IfOk result (λ path. Explains (records_of rows.now) at.0
        (asked_by question.entry) (map thing_of path.items)) }
{
    if let Some(root) = first_root(rows, at, question) {
        let mut path = Vec::new(alloc);
        path.push(root)?;
        return Ok(path);
    }
    let searched = PathSearch::new(alloc, rows, book, graph, at)?;
    // For the prover: the result is opened, not passed on.
    let path = searched.path(alloc, question)?;
    Ok(path)
}

// The path of the last of these moments at which there is one, found by halving: what leads to a
// row at a moment led there at each before. No thing where there is none.
fn last_path<'a>(
    alloc: Global,
    rows: &StoreRows<'a>,
    book: &NodeBook<'_>,
    graph: &Graph,
    question: Question<'_>,
    ends: &[i128],
) -> Result<Vec<ThingRow<'a>>, Fault>
    requires graph { HasGraph (records_of rows.now) book.now graph.now }
    requires small { IsSmall rows.now }
    requires order { AreRising ends.now }
    ensures fault { Refuses result None }
    ensures ok { IfOk result (λ path. IsLastOf (records_of rows.now) (asked_by question.entry)
        ends.now (map thing_of path.items)) }
{
    if ends.is_empty() {
        return Ok(Vec::new(alloc));
    }
    let middle = ends.len() / 2;
    let path = first_path(alloc, rows, book, graph, question, Instant(ends[middle]))?;
    if has_none(&path) {
        // For the prover: the result is opened, not passed on.
        let earlier = last_path(alloc, rows, book, graph, question, &ends[..middle])?;
        return Ok(earlier);
    }
    let later = last_path(alloc, rows, book, graph, question, &ends[middle + 1..])?;
    if has_none(&later) {
        return Ok(path);
    }
    Ok(later)
}

// The path of the last moment at which one led to the asked row, where none does at this one.
fn ended_path<'a>(
    alloc: Global,
    rows: &StoreRows<'a>,
    book: &NodeBook<'_>,
    graph: &Graph,
    question: Question<'_>,
    at: Instant,
) -> Result<Vec<ThingRow<'a>>, Fault>
    requires graph { HasGraph (records_of rows.now) book.now graph.now }
    requires small { IsSmall rows.now }
    requires none { Explains (records_of rows.now) at.0 (asked_by question) [] }
    ensures fault { Refuses result None }
    ensures ok { IfOk result (λ path. ExplainsLast (records_of rows.now)
        (asked_by question.entry) (map thing_of path.items)) }
{
    let ends = past_ends(alloc, rows, at)?;
    // For the prover: the result is opened, not passed on.
    let path = last_path(alloc, rows, book, graph, question, &ends)?;
    Ok(path)
}

fn has_none(path: &Vec<ThingRow<'_>>) -> bool
    ensures { result ≡ (length path.now.items == 0) }
{
    path.is_empty()
}

/// What keeps a row, or did at the last moment at which something kept it.
pub(crate) fn explain_rows(
    rt: &(impl Threads + Sync),
    alloc: Global,
    rows: &StoreRows<'_>,
    question: Question<'_>,
    at: Instant,
) -> Result<Explanation, Fault>
    requires apart { AreApart (records_of rows.now) }
    requires lent { AreLent rows.now }
    requires few { is_too_large (records_of rows.now) ≡ false }
    ensures fault { Refuses result None }
    ensures ok { IfOk result (λ e. IsExplanation (records_of rows.now) at.0
        (asked_by question.entry) e.kept e.path.items) }
{
    let (book, graph, _ignored) = build(rt, alloc, rows, at, 1)?;
    let path = first_path(alloc, rows, &book, &graph, question, at)?;
    if has_none(&path) {
        let before = ended_path(alloc, rows, &book, &graph, question, at)?;
        let past = steps_of(alloc, rows.profile, true, &before)?;
        return Ok(Explanation {
            kept: false,
            path: past,
        });
    }
    let steps = steps_of(alloc, rows.profile, false, &path)?;
    Ok(Explanation {
        kept: true,
        path: steps,
    })
}
