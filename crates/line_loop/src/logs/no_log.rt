//! A log that keeps nothing.

use crate::{LineLog, Mode, RunError};

/// Keeps no line. What a start finds after a crash it doesn't say.
#[derive(Drop)]
pub struct NoLog;

impl LineLog for NoLog {
    ghost use Rattle.std.specs.Prelude.{⊤, false};

    ghost keeps = { false };

    ghost holds = { λ _ _ _. ⊤ };

    ghost settled = { λ _. ⊤ };

    ghost may_find = { λ _ _. ⊥ };

    ghost has_room = { λ _ _. ⊤ };

    fn make_room(&mut self) -> Result<Mode, RunError> {
        Ok(Mode::AllLines)
    }

    fn reserve(&mut self, _line: &[u8]) -> bool {
        true
    }

    fn append(&mut self, _line: &[u8]) -> Result<(), RunError> {
        Ok(())
    }

    fn commit(&mut self) -> Result<(), RunError> {
        Ok(())
    }

    fn is_due(&self, _work: u128) -> bool {
        false
    }

    ghost found = { λ _ _ _ _ _ none. absurd none };
}
