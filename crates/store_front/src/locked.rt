//! The value behind the lock, and how it is opened.
ghost use Rattle.std.specs.Prelude.{◌≡◌, ◌+◌, [], None, IfOk, IfErr, OnOk, OnErr, max};
ghost use Rattle.meta_types.specs.Faults.{Refuses};
ghost use Rattle.meta_types.specs.Rows.{empty_store};
ghost use Rattle.meta_types.specs.Sound.{IsSound};
ghost use Rattle.meta_types.specs.declared.fault.Fault.TheVariants.{FailedPrecondition};

use crate::event::entry::Entry;
use crate::history::base::Base;
use crate::history_mode::{HistoryMode, WithHistory, WithoutHistory};
use crate::session::Session;
use back_model::{
    BackLists, BlobBackend, IngestBackend, MemBackend, MemBlobs, MemIngests, SnapBackend,
};
use meta_types::Fault;
use request_core::{Records, State};
use row_tables::{RowTable, Seed};
use std::alloc::Global;
use std::marker::{Model, PhantomData};
use std::sync::ledger::{Blank, Book, Ledger, Share};

/// How many sessions a store may open.
pub const SESSIONS: u32 = 65536;

/// The store, the store at the opening, the entries since, and how many sessions were opened.
#[derive(Drop)]
pub struct Locked<
    L: Ledger,
    S: SnapBackend = MemBackend,
    B: BlobBackend = MemBlobs,
    I: IngestBackend = MemIngests,
    K: HistoryMode = WithHistory,
> {
    pub(crate) state: State<S, B, I>,
    pub(crate) base: Base,
    pub(crate) log: Vec<Entry>,
    pub(crate) opened: u32,
    pub(crate) book: Book<L>,
    pub(crate) rest: Share<L>,
    pub(crate) keeps: PhantomData<K>,
}

/// The locked value over models in memory.
pub type MemLocked<L, K> = Locked<L, MemBackend, MemBlobs, MemIngests, K>;

impl<L: Ledger, S: SnapBackend, B: BlobBackend, I: IngestBackend, K: HistoryMode> Model
    for Locked<L, S, B, I, K> {
    ghost use Rattle.std.specs.Prelude.{◌≡◌, ◌≤◌, ◌+◌, IsTrue};
    ghost use Rattle.std.specs.Vec.{vec_len};
    ghost use Rattle.store_front.specs.Front.{Front};

    ghost Value = { Front };

    ghost use Rattle.meta_types.specs.Histories.{IsLegal};
    ghost use Rattle.meta_types.specs.Sound.{IsSound};
    ghost use Rattle.store_front.specs.Parts.{AreOpened};

    ghost view = { λ s. record {
      store = s.state;
      base = s.base;
      log = s.log.items;
      opened = s.opened;
    } };

    ghost invariant = { λ s. record {
      legal : IsTrue K.KEPT → IsLegal s.base s.log.items s.state.state;
      sound : IsSound s.state.state;
      opened : AreOpened s.opened s.log.items;
      total : s.book.total ≡ vec_len s.log;
      few : s.opened ≤ 65536;
      parts : 65536 ≤ s.rest.parts + s.opened;
      none : s.rest.amount ≡ 0;
    } };
}

impl<L: Ledger, S: SnapBackend, B: BlobBackend, I: IngestBackend> Locked<L, S, B, I> {
    /// A store over this state, with no entry and no session. The blank has 65,536 parts.
    pub fn open(
        alloc: Global,
        blank: Blank,
        state: State<S, B, I>,
    ) -> Result<Locked<L, S, B, I>, Fault>
        requires sound { IsSound state.state }
        requires name { blank.name ≡ L.name }
        requires parts { (blank.parts ≡ L.parts) × (blank.parts ≡ 65536) }
        ensures fault { Refuses result None }
        ensures ok { IfOk result (λ locked. locked ≡ record {
          store = state;
          base = state.state;
          log = [];
          opened = 0;
        }) }
    {
        let base = base_of(alloc, &state)?;
        let (book, rest) = blank.open::<L>();
        Ok(Locked {
            state,
            base,
            log: Vec::new(alloc),
            opened: 0,
            book,
            rest,
            keeps: PhantomData,
        })
    }
}

impl<L: Ledger, S: SnapBackend, B: BlobBackend, I: IngestBackend> Locked<
    L,
    S,
    B,
    I,
    WithoutHistory,
> {
    /// A store over this state that keeps no history, with no session. It takes no memory. The
    /// blank has 65,536 parts.
    pub fn open_without_history(
        alloc: Global,
        blank: Blank,
        state: State<S, B, I>,
    ) -> Locked<L, S, B, I, WithoutHistory>
        requires sound { IsSound state.state }
        requires name { blank.name ≡ L.name }
        requires parts { (blank.parts ≡ L.parts) × (blank.parts ≡ 65536) }
        ensures { result ≡ record {
          store = state;
          base = empty_store;
          log = [];
          opened = 0;
        } }
    {
        let (book, rest) = blank.open::<L>();
        Locked {
            state,
            base: empty_base(alloc),
            log: Vec::new(alloc),
            opened: 0,
            book,
            rest,
            keeps: PhantomData,
        }
    }
}

impl<L: Ledger, S: SnapBackend, B: BlobBackend, I: IngestBackend, K: HistoryMode> Locked<
    L,
    S,
    B,
    I,
    K,
> {
    /// A new session, refused where as many are open as may be. It takes no memory.
    pub fn session(&mut self, alloc: Global) -> Result<Session<L>, Fault>
        ensures ok { IfOk result (λ session. session
            ≡ record { number = self.old.opened; list = [] }) }
        ensures opened { OnOk result (self.new ≡ record self.old { opened = self.old.opened + 1 }) }
        ensures fault { IfErr result (λ f. (f ≡ FailedPrecondition)
            × (self.old.opened ≡ 65536)) }
        ensures err { OnErr result (self.new ≡ self.old) }
    {
        if self.opened == SESSIONS {
            return Err(Fault::FailedPrecondition);
        }
        let number = self.opened;
        let share = self.rest.split_off(1, 0);
        self.opened += 1;
        Ok(Session {
            number,
            list: Vec::new(alloc),
            share,
        })
    }

    /// Counts a session as opened. One of this store is counted already, so that nothing changes.
    /// Each caller learns here that the store is sound.
    pub fn admit(&mut self, session: &Session<L>)
        ensures opened { self.new
            ≡ record self.old { opened = max self.old.opened (session.now.number + 1) } }
        ensures sound { IsSound self.new.store.state }
    {
        if self.opened <= session.number {
            self.opened = session.number + 1;
        }
    }
}

// Nothing stored. It takes no memory, and nothing is ever added to it, so any seed serves.
fn empty_base(alloc: Global) -> Base
    ensures { result ≡ empty_store }
{
    Base {
        records: Records::empty(alloc),
        lists: BackLists {
            blobs: RowTable::new(alloc, Seed::Fixed),
            snapshots: Vec::new(alloc),
            ingests: Vec::new(alloc),
        },
    }
}

// The records and backend lists of a state.
pub(crate) fn base_of<S: SnapBackend, B: BlobBackend, I: IngestBackend>(
    alloc: Global,
    state: &State<S, B, I>,
) -> Result<Base, Fault>
    ensures fault { Refuses result None }
    ensures ok { IfOk result (λ base. base ≡ state.now.state) }
{
    let State { records, backends } = state;
    Ok(Base {
        records: records.copy(alloc)?,
        lists: backends.lists(alloc)?,
    })
}
