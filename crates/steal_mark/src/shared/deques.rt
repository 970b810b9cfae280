//! The rule of the deques: what each pass may put and take.
ghost use Rattle.std.specs.Prelude.{◌-◌, [], None, Option};
ghost use Rattle.mark_core.specs.declared.graph.Graph.{Graph};
ghost use Rattle.steal_mark.specs.Dealing.{pass_view, IsDealt, Pushed, Taken, Emptied, cut_left, cut_right, joined, NoMore};

use crossbeam_deque::protocol::{Join, Lesson, Outcome, Protocol, Split};
use crossbeam_deque::{Pass, Stealer, Worker};
use mark_core::Graph;
use std::alloc::Global;
use std::collections::LinkedList;
use std::marker::{Brand, PhantomData};

// What a pass has pushed and taken, its graph, and its parts of the right to know the whole. No
// value of it is made.
pub struct PassView {
    pub parts: u64,
    pub graph: Option<Graph>,
    pub pushed: LinkedList<u32>,
    pub taken: LinkedList<u32>,
}

pub struct DealRule;

impl Protocol<u32, PassView> for DealRule {
    ghost holds = { IsDealt };

    ghost first = { pass_view 1024 None [] [] };

    ghost guest = { pass_view 0 None [] [] };
}

pub struct Puts;

impl Outcome<u32, PassView> for Puts {
    ghost then = { Pushed };
}

pub struct Takes;

impl Outcome<u32, PassView> for Takes {
    ghost then = { Taken };

    ghost empty = { Emptied };
}

pub struct SplitPass;

impl Split<PassView> for SplitPass {
    ghost left = { cut_left };

    ghost right = { cut_right };
}

// A pass with no part.
pub struct EmptyPass;

impl Split<PassView> for EmptyPass {
    ghost left = { λ v. pass_view (v.parts - 0) v.graph v.pushed v.taken };

    ghost right = { λ v. pass_view 0 v.graph [] [] };
}

impl Join<PassView> for SplitPass {
    ghost both = { joined };

    ghost spent = { pass_view 0 None [] [] };
}

/// Which graph a deque's nodes are of.
pub trait Naming {
    ghost graph: { Option Graph };
}

impl Naming for Brand {
    ghost graph = { None };
}

// Tells the first pass the graph.
pub struct Names<J: Naming> {
    of: PhantomData<J>,
}

impl<J: Naming> Split<PassView> for Names<J> {
    ghost left = { λ v. pass_view v.parts J.graph v.pushed v.taken };

    ghost right = { λ _. pass_view 0 None [] [] };
}

pub type Deque = Worker<u32, Global, PassView, DealRule>;

pub type Thief = Stealer<u32, Global, PassView, DealRule>;

pub type NodePass = Pass<u32, PassView>;

// What was taken and pushed.
pub struct Total;

impl Lesson<u32, PassView> for Total {
    ghost fact = { NoMore };
}
