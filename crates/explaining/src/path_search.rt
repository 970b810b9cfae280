//! A search for paths at a moment.
ghost use Rattle.std.specs.Prelude.{◌≡◌, ◌<◌, ◌-◌, ◌∷◌, ◌++◌, length, map, option_map, get_or};
ghost use Rattle.std.specs.Prelude.{Some, None, IfOk};
ghost use Rattle.meta_types.specs.Faults.{Refuses};
ghost use Rattle.meta_types.specs.Explanations.{Explains};
ghost use Rattle.meta_types.specs.Walks.{end_of};
ghost use Rattle.gc_graph.specs.Stored.{records_of, IsSmall};
ghost use Rattle.explaining.specs.ThingRows.{thing_of, numbered, thing_at};
ghost use Rattle.explaining.specs.Firsts.{chain, listed, AreWithin, root_before};
ghost use Rattle.explaining.specs.Ends.{first_root};
ghost use Rattle.explaining.specs.Questions.{asked_by};
ghost use Rattle.explaining.specs.Searched.{HasGraph};
ghost use Rattle.explaining.specs.ShortestPaths.{IsFirstTo};

use crate::asked::Question;
use crate::firsts::first_before;
use crate::holders::holder_of;
use crate::nearest::nearest;
use crate::thing_row::ThingRow;
use crate::things::thing_at;
use gc_graph::{NodeBook, StoreRows, find_starts};
use mark_core::{Graph, depths};
use meta_types::{Fault, Instant};
use std::alloc::Global;
use std::marker::Model;

// The things of a number and of those before it, as far back as the steps go; and the last number.
fn things_back<'a>(
    alloc: Global,
    rows: &StoreRows<'a>,
    before: &[Option<u32>],
    number: u32,
    steps: u32,
) -> Result<(Vec<ThingRow<'a>>, u32), Fault>
    requires number { number < length before.now }
    requires numbers { length before.now ≡ length (numbered (records_of rows.now)) }
    requires within { AreWithin (length before.now) before.now }
    ensures fault { Refuses result None }
    ensures things { IfOk result (λ r. map thing_of r.0.items
        ≡ map (thing_at (records_of rows.now)) (number ∷ chain before.now steps number)) }
    ensures last { IfOk result (λ r. r.1 ≡ end_of number (chain before.now steps number)) }
    ensures range { IfOk result (λ r. r.1 < length before.now) }
{
    let mut things = Vec::new(alloc);
    things.push(thing_at(rows, number))?;
    let mut here = number;
    for step in 0..steps {
        // The steps only bound the loop.
        let _step = step;
        let Some(next) = before[here as usize] else {
            return Ok((things, here));
        };
        things.push(thing_at(rows, next))?;
        here = next;
    }
    Ok((things, here))
}

// The root before a thing that is one step from it.
fn root_before<'a>(
    alloc: Global,
    rows: &StoreRows<'a>,
    at: Instant,
    before: &[Option<u32>],
    number: u32,
) -> Result<Option<ThingRow<'a>>, Fault>
    requires number { number < length before.now }
    requires numbers { length before.now ≡ length (numbered (records_of rows.now)) }
    requires within { AreWithin (length before.now) before.now }
    ensures fault { Refuses result None }
    ensures ok { IfOk result (λ root. option_map thing_of root
        ≡ root_before (records_of rows.now) at.0 before.now number) }
{
    if let Some(holder) = holder_of(alloc, rows, at, thing_at(rows, number))? {
        return Ok(Some(holder));
    }
    match before[number as usize] {
        Some(root) => Ok(Some(thing_at(rows, root))),
        None => Ok(None),
    }
}

// The numbers on a path before a number at this depth.
fn steps_before(depth: u32) -> u32
    ensures { result ≡ depth - 1 }
{
    if depth == 0 { 0 } else { depth - 1 }
}

// A path with its root at the end, where there is one.
fn with_root<'a>(
    path: Vec<ThingRow<'a>>,
    root: Option<ThingRow<'a>>,
) -> Result<Vec<ThingRow<'a>>, Fault>
    ensures fault { Refuses result None }
    ensures ok { IfOk result (λ all. map thing_of all.items
        ≡ map thing_of path.entry.items ++ listed (option_map thing_of root.entry)) }
{
    let mut path = path;
    let Some(root) = root else {
        return Ok(path);
    };
    path.push(root)?;
    Ok(path)
}

/// The rows, the graph of their references, and how far each number is at a moment from where paths
/// begin: contracts see the records, the moment and the depths.
#[derive(Drop)]
pub(crate) struct PathSearch<'s, 'a> {
    rows: &'s StoreRows<'a>,
    graph: &'s Graph,
    at: Instant,
    depths: Vec<Option<u32>>,
}

impl<'s, 'a> Model for PathSearch<'s, 'a> {
    ghost use Rattle.gc_graph.specs.Stored.{records_of};
    ghost use Rattle.explaining.specs.Searched.{Searched, IsSearched};

    ghost Value = { Searched };

    ghost view = { λ s. record {
      records = records_of s.rows.now;
      at = s.at.0;
      depths = s.depths.items;
    } };

    ghost invariant = { λ s. IsSearched (records_of s.rows.now) s.at.0 s.graph.now s.depths.items };
}

impl<'s, 'a> PathSearch<'s, 'a> {
    /// Finds where paths begin at the moment, and how far each number is from there.
    pub(crate) fn new(
        alloc: Global,
        rows: &'s StoreRows<'a>,
        book: &NodeBook<'_>,
        graph: &'s Graph,
        at: Instant,
    ) -> Result<PathSearch<'s, 'a>, Fault>
        requires graph { HasGraph (records_of rows.now) book.now graph.now }
        requires small { IsSmall rows.now }
        ensures fault { Refuses result None }
        ensures records { IfOk result (λ found. found.records ≡ records_of rows.now) }
        ensures at { IfOk result (λ found. found.at ≡ at.0) }
    {
        let starts = find_starts(alloc, book, rows, at)?;
        let depths = depths(alloc, graph, &starts.own, &starts.held)?;
        Ok(PathSearch {
            rows,
            graph,
            at,
            depths,
        })
    }

    // Of all shortest paths to a number at this depth the first, from the last thing back.
    fn path_to(&self, alloc: Global, number: u32, depth: u32) -> Result<Vec<ThingRow<'a>>, Fault>
        requires { get_or self.now.depths number None ≡ Some depth }
        ensures fault { Refuses result None }
        ensures ok { IfOk result (λ path. IsFirstTo self.now.records self.now.at
            (thing_at self.now.records number) (map thing_of path.items)) }
    {
        let before = first_before(alloc, self.rows, self.graph, &self.depths)?;
        let (path, last) = things_back(alloc, self.rows, &before, number, steps_before(depth))?;
        if depth == 0 {
            return Ok(path);
        }
        let root = root_before(alloc, self.rows, self.at, &before, last)?;
        // For the prover: the result is opened, not passed on.
        let whole = with_root(path, root)?;
        Ok(whole)
    }

    /// Of all shortest paths to the question's things the first, from the last thing back; no thing
    /// where no path leads to them. A root that the question names is the caller's.
    pub(crate) fn path(
        &self,
        alloc: Global,
        question: Question<'_>,
    ) -> Result<Vec<ThingRow<'a>>, Fault>
        ensures fault { Refuses result None }
        ensures ok { IfOk result (λ path. None ≡ first_root self.now.records self.now.at
            (asked_by question.entry) → Explains self.now.records self.now.at
            (asked_by question.entry) (map thing_of path.items)) }
    {
        let Some(number) = nearest(self.rows, question, &self.depths) else {
            return Ok(Vec::new(alloc));
        };
        let Some(depth) = self.depths[number as usize] else {
            return Ok(Vec::new(alloc));
        };
        // For the prover: the result is opened, not passed on.
        let path = self.path_to(alloc, number, depth)?;
        Ok(path)
    }
}
