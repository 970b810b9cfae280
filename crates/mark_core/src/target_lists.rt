//! The targets of each node of a graph, one list behind the other.
ghost use Rattle.std.specs.Prelude.{◌≡◌, ◌<◌, ◌≤◌, ◌+◌, ◌++◌, [], ◌∷◌, length, map, replicate, vec_len, vec_capacity, All, IfOk, OnOk, OnErr, slice_index_or, slice_range};
ghost use Rattle.mark_core.specs.TargetLists.{lists_of, AreEnds};

use std::alloc::{AllocError, Global};
use std::marker::Model;

/// Lists of numbers in two vectors: all numbers, and where each list ends. A list takes four bytes
/// beside its numbers. There are fewer than 4,294,967,296 numbers: more are refused as memory, since
/// they would take 16 GiB. Contracts see the list of the lists.
#[derive(Drop)]
pub struct TargetLists {
    targets: Vec<u32>,
    ends: Vec<u32>,
}

impl Model for TargetLists {
    ghost use Rattle.std.specs.Prelude.{List, ℕ, length, ◌<◌};
    ghost use Rattle.mark_core.specs.TargetLists.{lists_of, AreEnds};

    ghost Value = { List (List ℕ) };

    ghost view = { λ l. lists_of l.targets.items 0 l.ends.items };

    ghost invariant = { λ l. AreEnds 0 l.ends.items (length l.targets.items)
        × length l.targets.items < 4294967296 };
}

impl TargetLists {
    /// No list.
    pub fn new(alloc: Global) -> TargetLists
        ensures { result ≡ [] }
    {
        TargetLists {
            targets: Vec::new(alloc),
            ends: Vec::new(alloc),
        }
    }

    /// No list, and room for `count` of them.
    pub fn with_capacity(alloc: Global, count: usize) -> Result<TargetLists, AllocError>
        ensures { IfOk result (λ l. l ≡ []) }
    {
        Ok(TargetLists {
            targets: Vec::new(alloc),
            ends: Vec::with_capacity(alloc, count)?,
        })
    }

    /// How many lists there are.
    pub fn len(&self) -> usize
        ensures count { result ≡ length self.now }
        ensures small { result < 9223372036854775808 }
    {
        self.ends.len()
    }

    /// The numbers of one list.
    pub fn list(&self, index: usize) -> &[u32]
        requires { index < length self.now }
        ensures { result.now ≡ slice_index_or self.now index [] }
    {
        let end = self.ends[index] as usize;
        let start = start_of(&self.ends, index);
        part(&self.targets, start, end)
    }

    /// One list more, at the end.
    pub fn push(&mut self, list: &[u32]) -> Result<(), AllocError>
        ensures ok { OnOk result (self.new ≡ self.old ++ list.now ∷ []) }
        ensures err { OnErr result (self.new ≡ self.old) }
    {
        let end = end_behind(self.targets.len(), list.len())?;
        self.ends.reserve(1)?;
        self.targets.reserve(list.len())?;
        push_each(&mut self.targets, list);
        self.ends.push_reserved(end);
        Ok(())
    }

    /// This number of empty lists more, at the end.
    pub fn push_empty(&mut self, count: usize) -> Result<(), AllocError>
        ensures ok { OnOk result (self.new ≡ self.old ++ replicate count []) }
        ensures err { OnErr result (self.new ≡ self.old) }
    {
        let Some(len) = self.ends.len().checked_add(count) else {
            return Err(AllocError);
        };
        let end = self.targets.len() as u32;
        self.ends.resize(len, end)?;
        Ok(())
    }

    /// The lists of another, in their order, at the end.
    pub fn append(&mut self, others: &TargetLists) -> Result<(), AllocError>
        ensures { OnOk result (self.new ≡ self.old ++ others.now) }
    {
        let start = self.targets.len();
        let _end = end_behind(start, others.targets.len())?;
        self.ends.reserve(others.ends.len())?;
        self.targets.extend_from_slice(&others.targets)?;
        push_shifted(&mut self.ends, &others.ends, start as u32);
        Ok(())
    }
}

// Where so many numbers end that begin there. Past 4,294,967,295 there is none.
fn end_behind(start: usize, count: usize) -> Result<u32, AllocError>
    requires { start < 4294967296 }
    ensures end { IfOk result (λ end. end ≡ start + count) }
    ensures fit { IfOk result (λ end. end < 4294967296) }
{
    if count <= u32::MAX as usize - start {
        Ok((start + count) as u32)
    } else {
        Err(AllocError)
    }
}

// Adds numbers, for which there is room. A copy of a whole block takes longer where they are few.
fn push_each(numbers: &mut Vec<u32>, more: &[u32])
    requires { vec_len numbers.old + length more.now ≤ vec_capacity numbers.old }
    ensures { numbers.new.items ≡ numbers.old.items ++ more.now }
{
    for number in more {
        numbers.push_reserved(*number);
    }
}

// Adds ends behind a place, for which there is room.
fn push_shifted(ends: &mut Vec<u32>, more: &[u32], start: u32)
    requires room { vec_len ends.old + length more.now ≤ vec_capacity ends.old }
    requires fit { All (λ end. start + end < 4294967296) more.now }
    ensures { ends.new.items ≡ ends.old.items ++ map (λ end. start + end) more.now }
{
    for end in more {
        ends.push_reserved(start + *end);
    }
}

// Where a list begins: where the one before it ends.
fn start_of(ends: &[u32], index: usize) -> usize
    requires { index < length ends.now }
    ensures { result ≡ slice_index_or (0 ∷ ends.now) index 0 }
{
    if index == 0 {
        0
    } else {
        ends[index - 1] as usize
    }
}

fn part(numbers: &[u32], start: usize, end: usize) -> &[u32]
    requires order { start ≤ end }
    requires within { end ≤ length numbers.now }
    ensures { result.now ≡ slice_range numbers.now start end }
{
    &numbers[start..end]
}
