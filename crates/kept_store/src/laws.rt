//! What holds of journals and stores.
ghost use Rattle.kept_store.specs.Laws.{JournalsReplay, RestartsJoin, RunsReplay, NumbersAskNothing};
ghost use Rattle.kept_store.specs.Loads.{ScriptsLoad, GroupsLoad, EndsAskNothing};

use crate::StoreService;
use line_loop::LineLog;

/// A journal's lines are those of its groups, so a replay of one is a replay of the other.
pub fn journals_replay()
    ensures lines { JournalsReplay }
{}

/// Whatever a run was refused, its logged lines give the store that it left.
pub fn runs_replay<S: StoreService>()
    ensures runs { RunsReplay S.steps S.store_of }
{}

/// A line that raises the next backend number is no request.
pub fn numbers_ask_nothing()
    ensures numbers { NumbersAskNothing }
{}

/// After a run that stopped and went on, a start finds the same as after one run that didn't stop.
pub fn restarts_join<S: StoreService, L: LineLog>()
    ensures joined { RestartsJoin S.steps S.store_of L.holds }
{}

/// A script of a journal, and the groups of a backup, load as the journal's lines. A line that ends a
/// checkpoint is no request.
pub fn journals_load()
    ensures scripts { ScriptsLoad }
    ensures groups { GroupsLoad }
    ensures ends { EndsAskNothing }
{}
