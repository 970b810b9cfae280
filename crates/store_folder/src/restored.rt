//! The trait of a service whose lines make it again.
ghost use Rattle.std.specs.Prelude.{◌≡◌};
ghost use Rattle.store_folder.specs.Serves.{MakesStep};

use crate::taking::Source;
use line_loop::Service;

/// What a checkpoint can make again: a service whose accepted lines make it from nothing.
pub trait Restored: Service + Source {
    /// Where a journal whose checkpoint has this length is due for the next one.
    fn due_at(&self, end: usize) -> usize;

    /// From now on only what later lines look at makes a checkpoint due.
    fn forget_work(&mut self)
        ensures { self.new ≡ self.old };

    /// Lines that make it make it after a step too, with the line of the step if it was accepted.
    ghost keeps: { MakesStep Self.steps Self.makes };
}
