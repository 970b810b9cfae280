//! A row put into a map of rows.
ghost use Rattle.std.specs.Prelude.{◌≡◌, false, OnErr, OnOk, is_some};
ghost use Rattle.meta_types.specs.Faults.{Refuses, least_of};
ghost use Rattle.indexmap.specs.IndexMap.{IsUnique, get, insert_entry};

use crate::named::Named;
use crate::row::NamedRow;
use crate::seed::Seed;
use indexmap::IndexMap;
use indexmap::map::Entry;
use meta_types::Fault;

// One look for the name gives its row's place, or the one where a row goes.
fn insert_into_room<K: Named, R: NamedRow<K>>(
    rows: &mut IndexMap<K, R, Seed>,
    name: K,
    row: R,
) -> Result<(), Fault>
    ensures fault { Refuses result (least_of false false (is_some (get K.eq rows.old name)) false) }
    ensures ok { OnOk result (rows.new.entries ≡ insert_entry K.eq rows.old.entries name row) }
    ensures err { OnErr result (rows.new.entries ≡ rows.old.entries) }
    ensures unique { IsUnique K.eq rows.new }
{
    match rows.entry(name) {
        Ok(Entry::Vacant(place)) => {
            place.insert(row);
            Ok(())
        }
        Ok(Entry::Occupied(there)) => {
            // Lends the row that is there, so that the proof sees the map again.
            let _ = there.into_mut();
            Err(Fault::AlreadyExists)
        }
        Err(_) => Err(Fault::OutOfMemory),
    }
}

// Makes room for a row where there is none. A growth that is refused may have made the map's index
// larger, and its columns not: then a row fits where one was removed.
fn make_room<K: Named, R: NamedRow<K>>(rows: &mut IndexMap<K, R, Seed>)
    ensures { rows.new.entries ≡ rows.old.entries }
{
    if rows.len() == rows.capacity() {
        let _is_refused = rows.reserve(1).is_err();
    }
}

/// Adds a row whose name isn't there.
pub(crate) fn insert_new<K: Named, R: NamedRow<K>>(
    rows: &mut IndexMap<K, R, Seed>,
    name: K,
    row: R,
) -> Result<(), Fault>
    ensures fault { Refuses result (least_of false false (is_some (get K.eq rows.old name)) false) }
    ensures ok { OnOk result (rows.new.entries ≡ insert_entry K.eq rows.old.entries name row) }
    ensures err { OnErr result (rows.new.entries ≡ rows.old.entries) }
    ensures unique { IsUnique K.eq rows.new }
{
    make_room(rows);
    insert_into_room(rows, name, row)
}
