//! What a service tells beside its replies.

use crate::renewing::Why;
use crate::telling::{
    tell_checkpoint, tell_found, tell_identity, tell_no_checkpoint, tell_unwitnessed,
};
use journal::{Note, Sound};

/// What a service tells beside its replies.
pub trait Teller {
    /// How many lines a start found, how far they go, and of which store and generation they are.
    fn found(&mut self, path: &str, lines: u64, sound: &Sound, card: Note);

    /// That a file has no witness of the one that counts.
    fn unwitnessed(&mut self, path: &str);

    /// That a file has a checkpoint, which goes this far; or why it has none.
    fn renewed(&mut self, path: &str, end: usize, why: Option<Why>);
}

/// Tells it on standard error.
#[derive(Drop)]
pub struct Errors<'a> {
    pub rt: &'a HostRuntime,
}

impl Teller for Errors<'_> {
    fn found(&mut self, path: &str, lines: u64, sound: &Sound, card: Note) {
        tell_found(self.rt, path, lines, sound);
        tell_identity(self.rt, path, card);
    }

    fn unwitnessed(&mut self, path: &str) {
        tell_unwitnessed(self.rt, path);
    }

    fn renewed(&mut self, path: &str, end: usize, why: Option<Why>) {
        match why {
            None => tell_checkpoint(self.rt, path, end),
            Some(why) => tell_no_checkpoint(self.rt, path, why),
        }
    }
}
