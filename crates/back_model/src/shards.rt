//! The snapshots of all snapshotters, a shard each.
ghost use Rattle.std.specs.Prelude.{◌≡◌, ◌≢◌, ◌+◌, ◌-◌, ◌++◌, ◌∷◌, [], map, length, IfOk, IfSome, IfNone, IsTrue, OnOk, OnErr, None, option_map};
ghost use Rattle.std.specs.BTreeMap.{insert_entry};
ghost use Rattle.meta_types.specs.Faults.{Refuses};
ghost use Rattle.meta_types.specs.Text.{text_cmp};
ghost use Rattle.meta_types.specs.Keys.{put_in_order};
ghost use Rattle.meta_types.specs.Changes.{stands_before};
ghost use Rattle.back_model.specs.Answers.{Makes, make_fails, NeverFails};
ghost use Rattle.back_model.specs.Snaps.{is_held, is_parent_held};
ghost use Rattle.back_model.specs.Shown.{AreApart, shard_at, snaps_at, put_shard, shown, back_snap, listed_snap, all_snaps, all_failures, shard_after, IsPlace};
ghost use Rattle.back_model.specs.Settled.{snapshotters_of, AreSettled, IsAt};

mod sorting;

use crate::faults::MakeFault;
use crate::lists::push_snaps;
use crate::mem_backend::MemBackend;
use crate::shards::sorting::{in_order, sort};
use crate::traits::SnapBackend;
use meta_types::{Fault, ShortName};
use std::alloc::Global;
use std::cmp::Ordering;
use std::collections::BTreeMap;
use std::marker::Model;
use std::mem;

/// The shards. Those that are settled stand in the order of their snapshotters. The new ones stand
/// behind them as they arrived, each found by the place that the map has for its snapshotter.
#[derive(Drop)]
pub(crate) struct Shards<S: SnapBackend> {
    shards: Vec<(ShortName, S)>,
    settled: usize,
    places: BTreeMap<ShortName, usize>,
}

impl<S: SnapBackend> Model for Shards<S> {
    ghost use Rattle.std.specs.Prelude.{List, map};
    ghost use Rattle.std.specs.Coded.{coded_list};
    ghost use Rattle.back_model.specs.Shown.{Shard, shard_code, shown};
    ghost use Rattle.back_model.specs.Settled.{in_place, snapshotters_of, AreSettled};

    ghost Value = { List Shard };

    ghost coded = { coded_list shard_code };

    ghost view = { λ s. in_place (map (shown S.contents S.fails) s.shards.items) };

    ghost invariant = { λ s. AreSettled
        (snapshotters_of (map (shown S.contents S.fails) s.shards.items)) s.settled
        s.places.entries };
}

// Where the snapshotter's shard is among shards in order, or else where it would stand, by halving.
fn place<S: SnapBackend>(shards: &[(ShortName, S)], snapshotter: &ShortName) -> Result<usize, usize>
    requires { AreApart (map (shown S.contents S.fails) shards.now) }
    ensures { IsPlace (λ e. e.0) snapshotter.now shards.now result }
{
    shards.binary_search_by(
        |entry: &(ShortName, S)| -> Ordering
            ensures { result ≡ text_cmp entry.now.0 snapshotter.entry.now }
        { entry.0.cmp(snapshotter) },
    )
}

fn is_last<S: SnapBackend>(shards: &[(ShortName, S)], snapshotter: &ShortName) -> bool
    ensures { IsTrue result → IsAt snapshotter.now (length shards.now - 1)
        (snapshotters_of (map (shown S.contents S.fails) shards.now)) }
{
    match shards.last() {
        Some(entry) => entry.0 == *snapshotter,
        None => false,
    }
}

// Where the snapshotter's shard is: the last one, which is often asked for again, or among the
// settled ones, or else among the new ones.
fn place_of<S: SnapBackend>(
    shards: &[(ShortName, S)],
    settled: usize,
    places: &BTreeMap<ShortName, usize>,
    snapshotter: &ShortName,
) -> Option<usize>
    requires { AreSettled (snapshotters_of (map (shown S.contents S.fails) shards.now)) settled
        places.now.entries }
    ensures found { IfSome result (λ at. IsAt snapshotter.now at
        (snapshotters_of (map (shown S.contents S.fails) shards.now))) }
    ensures none { IfNone result
        (shard_at snapshotter.now (map (shown S.contents S.fails) shards.now) ≡ None) }
{
    if is_last(shards, snapshotter) {
        return Some(shards.len() - 1);
    }
    let (front, _late) = shards.split_at(settled);
    match place(front, snapshotter) {
        Ok(at) => Some(at),
        Err(_) => places.get(snapshotter).copied(),
    }
}

// Puts a new shard behind all others, and its place into the map.
fn add<S: SnapBackend>(
    shards: &mut Vec<(ShortName, S)>,
    places: &mut BTreeMap<ShortName, usize>,
    snapshotter: ShortName,
    shard: S,
) -> Result<(), Fault>
    ensures fault { Refuses result None }
    ensures added { OnOk result (shards.new.items
        ≡ shards.old.items ++ (snapshotter, shard) ∷ []) }
    ensures noted { OnOk result (places.new.entries
        ≡ insert_entry text_cmp places.old.entries snapshotter (length shards.old.items)) }
    ensures err { OnErr result ((shards.new.items ≡ shards.old.items)
        × (places.new.entries ≡ places.old.entries)) }
{
    let at = shards.len();
    let name = snapshotter.copy()?;
    shards.push((snapshotter, shard))?;
    if places.insert(name, at).is_err() {
        // Without a place in the map, nothing would find the shard.
        let _ = shards.pop();
        return Err(Fault::OutOfMemory);
    }
    Ok(())
}

impl<S: SnapBackend> Shards<S> {
    // No shard.
    pub(crate) fn new(alloc: Global) -> Shards<S>
        ensures { result ≡ [] }
    {
        Shards {
            shards: Vec::new(alloc),
            settled: 0,
            places: BTreeMap::new(alloc),
        }
    }

    pub(crate) fn get(&self, snapshotter: &ShortName) -> Option<&S>
        ensures shard { option_map (λ s. shown S.contents S.fails (snapshotter.now, s.now)) result
            ≡ shard_at snapshotter.now self.now }
        ensures order { AreApart self.now }
    {
        match place_of(&self.shards, self.settled, &self.places, snapshotter) {
            Some(at) => Some(&self.shards[at].1),
            None => None,
        }
    }

    pub(crate) fn set(&mut self, snapshotter: ShortName, shard: S) -> Result<(), Fault>
        ensures fault { Refuses result None }
        ensures ok { OnOk result (self.new
            ≡ put_shard (shown S.contents S.fails (snapshotter, shard)) self.old) }
        ensures err { OnErr result (self.new ≡ self.old) }
    {
        match place_of(&self.shards, self.settled, &self.places, &snapshotter) {
            Some(at) => self.shards[at] = (snapshotter, shard),
            None => add(&mut self.shards, &mut self.places, snapshotter, shard)?,
        }
        Ok(())
    }

    // Puts the shard of a new snapshotter.
    fn push(&mut self, snapshotter: ShortName, shard: S) -> Result<(), Fault>
        requires { shard_at snapshotter self.old ≡ None }
        ensures fault { Refuses result None }
        ensures ok { OnOk result (self.new
            ≡ put_shard (shown S.contents S.fails (snapshotter, shard)) self.old) }
        ensures err { OnErr result (self.new ≡ self.old) }
    {
        add(&mut self.shards, &mut self.places, snapshotter, shard)?;
        Ok(())
    }

    // Makes a snapshot in a shard that is there.
    fn make_there(
        &mut self,
        alloc: Global,
        snapshotter: &ShortName,
        number: u64,
        parent: Option<u64>,
    ) -> Result<(), MakeFault>
        requires { shard_at snapshotter.now self.old ≢ None }
        ensures fault { Makes result (is_held (snaps_at snapshotter.now self.old) number)
            (is_parent_held (snaps_at snapshotter.now self.old) parent) }
        ensures put { self.new
            ≡ put_shard (shard_after result snapshotter.now self.old number parent) self.old }
    {
        match place_of(&self.shards, self.settled, &self.places, snapshotter) {
            Some(at) => {
                let entry = &mut self.shards[at];
                entry.1.make(alloc, number, parent)
            }
            None => unreachable!(),
        }
    }

    // Makes a snapshot, in a fresh shard where there is none.
    pub(crate) fn make(
        &mut self,
        alloc: Global,
        snapshotter: &ShortName,
        number: u64,
        parent: Option<u64>,
    ) -> Result<(), MakeFault>
        ensures fault { Makes result (is_held (snaps_at snapshotter.now self.old) number)
            (is_parent_held (snaps_at snapshotter.now self.old) parent) }
        ensures ok { OnOk result (self.new
            ≡ put_shard (shard_after result snapshotter.now self.old number parent) self.old) }
        ensures listed { OnOk result (all_snaps self.new ≡ put_in_order stands_before
            (back_snap snapshotter.now (number, parent)) (all_snaps self.old)) }
        ensures err { OnErr result (all_snaps self.new ≡ all_snaps self.old) }
        ensures fails { all_failures self.new ≡ all_failures self.old + make_fails result }
        ensures order { AreApart self.old }
    {
        if self.get(snapshotter).is_some() {
            return self.make_there(alloc, snapshotter, number, parent);
        }
        if parent.is_some() {
            return Err(MakeFault::Missing);
        }
        let Ok(name) = snapshotter.copy() else {
            return Err(MakeFault::Memory);
        };
        if self.push(name, S::fresh(alloc)).is_err() {
            return Err(MakeFault::Memory);
        }
        self.make_there(alloc, snapshotter, number, parent)
    }

    pub(crate) fn count(&self) -> usize
        ensures { result ≡ length self.now }
    {
        self.shards.len()
    }

    pub(crate) fn snaps(&self, alloc: Global) -> Result<Vec<(ShortName, u64, Option<u64>)>, Fault>
        ensures fault { Refuses result None }
        ensures ok { IfOk result (λ snaps. map listed_snap snaps.items ≡ all_snaps self.now) }
    {
        let shards = in_order(alloc, &self.shards)?;
        let mut snaps = Vec::new(alloc);
        for entry in &shards {
            push_snaps(alloc, &entry.0, &entry.1, &mut snaps)?;
        }
        Ok(snaps)
    }

    pub(crate) fn take(&mut self) -> Vec<(ShortName, S)>
        ensures taken { map (shown S.contents S.fails) result.items ≡ self.old }
        ensures order { AreApart self.old }
        ensures none { self.new ≡ [] }
    {
        sort(&mut self.shards);
        self.settled = 0;
        self.places.clear();
        let none = Vec::new(*self.shards.allocator());
        mem::replace(&mut self.shards, none)
    }

    pub(crate) fn put(&mut self, shards: Vec<(ShortName, S)>)
        requires { AreApart (map (shown S.contents S.fails) shards.items) }
        ensures { self.new ≡ map (shown S.contents S.fails) shards.items }
    {
        self.settled = shards.len();
        self.places.clear();
        self.shards = shards;
    }
}

impl<S: SnapBackend> Shards<S> {
    // Where no device ever fails, none has. It does nothing, and serves a proof alone.
    pub(crate) fn none_failed(&self)
        ensures { NeverFails S.fails → all_failures self.now ≡ 0 }
    {
        // To read the shards opens what the type keeps of them.
        let _ = &self.shards;
    }
}

impl Shards<MemBackend> {
    // Models in memory never fail. It does nothing, and serves a proof alone.
    pub(crate) fn never_failed(&self)
        ensures { all_failures self.now ≡ 0 }
    {
        // To read the shards opens what the type keeps of them.
        let _ = &self.shards;
    }
}
