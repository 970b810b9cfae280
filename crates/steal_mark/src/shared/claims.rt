//! The rule of the claim words.
ghost use Rattle.std.specs.Prelude.{List, ℕ, [], ◌-◌, ◌+◌, ◌++◌};
ghost use Rattle.steal_mark.specs.Claiming.{claims, IsClaimed, Looks, Learns};

use crate::shared::deques::Naming;
use atomic_table::{Join, Play, Split, TableRule};
use mark_core::Graph;
use std::collections::LinkedList;
use std::marker::{Brand, PhantomData};

// What a seat has claimed, the nodes that it saw claimed, and its parts of the right to know
// the whole. No value of it is made.
pub struct Claims {
    pub parts: u64,
    pub claimed: LinkedList<u32>,
    pub seen: LinkedList<u32>,
}

pub struct ClaimRule;

impl TableRule<(), Claims, Graph> for ClaimRule {
    ghost holds = { IsClaimed };

    ghost first = { λ _. claims 1024 [] [] };
}

// A look at one node.
pub struct Look;

impl Play<(), Claims> for Look {
    ghost then = { Looks };
}

// Which claims a seat hands on, and which it keeps.
pub trait Gift {
    ghost dealt: { List ℕ };

    ghost kept: { List ℕ };
}

impl Gift for Brand {
    ghost dealt = { [] };

    ghost kept = { [] };
}

// A seat for a worker, which takes over some claims, and has seen what this one has seen.
pub struct Give<J: Gift> {
    of: PhantomData<J>,
}

impl<J: Gift> Split<Claims> for Give<J> {
    ghost left = { λ v. claims (v.parts - 1) J.kept v.seen };

    ghost right = { λ v. claims 1 J.dealt v.seen };
}

// Two seats, joined, have claimed and seen what both had.
pub struct JoinClaims;

impl Join<Claims> for JoinClaims {
    ghost both = { λ v w. claims (v.parts + w.parts) (v.claimed ++ w.claimed) (v.seen ++ w.seen) };

    ghost spent = { claims 0 [] [] };
}

// A load by who has every part.
pub struct Learn<J: Naming> {
    of: PhantomData<J>,
}

impl<J: Naming> Play<(), Claims> for Learn<J> {
    ghost then = { Learns J.graph };
}
