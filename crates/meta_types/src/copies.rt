//! Copies of replies, which share names.
ghost use Rattle.std.specs.Prelude.{◌≡◌, None, Ok, IfOk};
ghost use Rattle.meta_types.specs.Faults.{Refuses};
ghost use Rattle.meta_types.specs.declared.reply.Reply.TheVariants as P;

use crate::fault::Fault;
use crate::reply::{Reply, ReplyRow};
use std::alloc::Global;

impl ReplyRow {
    /// A copy, which shares its names; its labels have bytes of their own.
    pub fn copy(&self, _alloc: Global) -> Result<ReplyRow, Fault>
        ensures fault { Refuses result None }
        ensures ok { IfOk result (λ row. row ≡ self.now) }
    {
        Ok(ReplyRow::clone(self)?)
    }
}

impl Reply {
    /// A copy, which shares names. That of `Done` takes no memory, so it is never refused.
    pub fn copy(&self, _alloc: Global) -> Result<Reply, Fault>
        ensures fault { Refuses result None }
        ensures ok { IfOk result (λ reply. reply ≡ self.now) }
        ensures done { self.now ≡ P.Done → result ≡ Ok P.Done }
    {
        Ok(Reply::clone(self)?)
    }
}
