//! The numbers of the sessions that are handed in.
ghost use Rattle.std.specs.Prelude.{◌≡◌, ◌<◌, ◌≤◌, ◌==◌, ℕ, All, MatchBool, count_by};
ghost use Rattle.store_front.specs.Finish.{AreEach};

use crate::session::Session;
use std::sync::ledger::Ledger;

// Whether the numbers are those below `opened`, each once.
pub(crate) fn are_each<L: Ledger>(opened: u32, sessions: &[Session<L>]) -> bool
    ensures { MatchBool result (AreEach opened sessions.now) (¬ (AreEach opened sessions.now)) }
{
    for number in 0..opened {
        if count_of(number, sessions) != 1 {
            return false;
        }
    }
    all_below(opened, sessions)
}

fn count_of<L: Ledger>(number: u32, sessions: &[Session<L>]) -> usize
    ensures { result ≡ count_by (λ s. s.number == number) sessions.now }
{
    let mut count = 0;
    for session in sessions {
        if session.number() == number {
            count += 1;
        }
    }
    count
}

fn all_below<L: Ledger>(opened: u32, sessions: &[Session<L>]) -> bool
    ensures { MatchBool result (All (λ s. s.number < opened) sessions.now) ((k : ℕ)
        × (opened ≤ k) × (0 < count_by (λ s. s.number == k) sessions.now)) }
{
    for session in sessions {
        if session.number() >= opened {
            return false;
        }
    }
    true
}
