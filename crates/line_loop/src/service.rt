//! The trait of what answers lines.
ghost use Rattle.std.specs.Prelude.{◌≡◌, ◌++◌, ◌∷◌, [], List, ℕ, Bool, false, IfOk, IfErr, IfSome, OnOk, OnErr};
ghost use Rattle.std.specs.Io.KnownBytes.{Appends};
ghost use Rattle.std.specs.Thread.{IsSync};
ghost use Rattle.line_loop.specs.Modes.{MayChange};
ghost use Rattle.line_loop.specs.Runs.{WritesFront, reply_bytes, EndsAnswering};

use crate::{Mode, RunError};
use std::alloc::AllocError;
use std::io::Write;
use std::sync::Wait;
use std::thread::Threads;

pub mod numbered;

/// The reply to a line, if there is one, and whether the line may have changed the service.
#[derive(Drop)]
pub struct Answered<P: Drop> {
    pub reply: Option<P>,
    pub changes: bool,
}

/// What answers lines.
pub trait Service {
    /// A reply: a text, a constant, or what is written in blocks.
    type ReplyText: Drop;

    /// The bytes of a reply.
    ghost bytes: { Self.ReplyText → List ℕ };

    /// Those of them that stand before its text.
    ghost front: { Self.ReplyText → List ℕ };

    /// From this a line is answered by this reply, may have changed it, and leads there.
    ghost steps: { Self → List ℕ → List ℕ → Bool → Self → Type 0 };

    /// The lines that add, and are refused where the log has no room for additions.
    ghost adds: { List ℕ → Bool };

    /// Answers a line, or refuses it where the mode doesn't let it be done. Of one of more than
    /// 65,536 bytes it gets the first 65,537. At `Err` memory is refused, and the run ends.
    fn answer<T: Threads + Wait + Sync>(
        &mut self,
        rt: &T,
        line: &[u8],
        mode: Mode,
    ) -> Result<Answered<Self::ReplyText>, AllocError>
        requires sync { IsSync T.row }
        ensures ok { IfOk result (λ answered.
            steps self.old line.now (reply_bytes bytes answered.reply) answered.changes self.new) }
        ensures allowed { IfOk result (λ answered. MayChange adds mode line.now answered.changes) };

    /// How long a start takes for what the kept lines looked at beyond themselves, in bytes of lines
    /// that it executes in this time.
    fn work(&self) -> u128;

    /// Refuses a line, which isn't done: there is no memory or no room to keep it.
    fn refuse(&mut self, line: &[u8]) -> Option<Self::ReplyText>
        ensures { steps self.old line.now (reply_bytes bytes result) false self.new };

    /// Puts the front of a reply behind other bytes.
    fn put_front(reply: &Self::ReplyText, out: &mut Vec<u8>) -> Result<(), AllocError>
        ensures { OnOk result (out.new.items ≡ out.old.items ++ front reply.now) };

    /// Returns the text of a reply without its line feed, if it stands as a text.
    fn text(reply: &Self::ReplyText) -> Option<&[u8]>
        ensures { IfSome result
            (λ text. bytes reply.now ≡ front reply.now ++ (text.now ++ 10 ∷ [])) };

    /// Writes a whole reply. It takes no more memory than the service has.
    fn write<W: Write>(&mut self, writer: &mut W, reply: &Self::ReplyText) -> Result<(), RunError>
        ensures same { self.new ≡ self.old }
        ensures ok { OnOk result
            (Appends (W.contents writer.old) (W.contents writer.new) (bytes reply.now)) }
        ensures err { OnErr result ((rest : List ℕ)
            × WritesFront (W.contents writer.old) (W.contents writer.new) rest (bytes reply.now)) }
        ensures error { IfErr result (EndsAnswering false) };
}
