//! The sweep of the tables, by the masks of a plan.
ghost use Rattle.std.specs.Prelude.{◌≡◌};
ghost use Rattle.meta_types.specs.Collected.{collected_records};
ghost use Rattle.meta_types.specs.Rows.{lease_key};
ghost use Rattle.row_tables.specs.Arrived.{sorted};
ghost use Rattle.object_tables.specs.InKeyOrder.{in_key_order};
ghost use Rattle.table_sweep.specs.InKeyOrder.{records_in_key_order};
ghost use Rattle.table_sweep.specs.Stays.{AreMasks, FitRows, StayNumbered, Collection, left_tables, left_leases};

use crate::masks::Masks;
use lease_book::Lease;
use meta_types::Name;
use object_tables::ArrivedTables;
use row_tables::ArrivedByNamespace;

/// Keeps the rows whose mask is set, in one pass a kind. The tables never hold a snapshot without
/// its parent, so the masks have to keep the parent of every kept snapshot. Those of a plan do, if
/// its marks are the reached numbers.
pub fn sweep(
    tables: &mut ArrivedTables,
    leases: &mut ArrivedByNamespace<Name, Lease>,
    masks: &Masks,
)
    requires rows { FitRows tables.old leases.old masks.now }
    requires numbered { StayNumbered tables.old masks.now }
    ensures left { tables.new ≡ left_tables masks.now tables.old }
    ensures leases_left { leases.new ≡ left_leases masks.now leases.old }
    ensures tables { (of : Collection) → tables.old ≡ of.records.tables
        → AreMasks of.records of.at of.reached masks.now
        → in_key_order tables.new
        ≡ (collected_records of.at of.reached (records_in_key_order of.records)).tables }
    ensures leases { (of : Collection) → leases.old ≡ of.records.leases
        → AreMasks of.records of.at of.reached masks.now
        → sorted lease_key leases.new
        ≡ (collected_records of.at of.reached (records_in_key_order of.records)).leases }
{
    tables.retain_images(&masks.images);
    tables.retain_content(&masks.content);
    tables.retain_ingests(&masks.ingests);
    tables.retain_snapshots(&masks.snapshots);
    leases.retain(&masks.leases);
}
