//! The image, container or lease that is asked for, where a path begins with it.
ghost use Rattle.std.specs.Prelude.{◌≡◌, ◌&&◌, option_map, map, None};
ghost use Rattle.meta_types.specs.Paths.{image, container, lease, is_root};
ghost use Rattle.gc_graph.specs.Stored.{records_of};
ghost use Rattle.explaining.specs.ThingRows.{thing_of};
ghost use Rattle.explaining.specs.Ends.{root_among, first_root};
ghost use Rattle.explaining.specs.Questions.{asked_by};

use crate::asked::{Question, asks_for};
use crate::holders::chosen;
use crate::thing_row::ThingRow;
use gc_graph::{StoreRows, image_stays, lease_stays};
use meta_types::Instant;

fn image_among<'a>(
    rows: &StoreRows<'a>,
    at: Instant,
    question: Question<'_>,
    best: Option<ThingRow<'a>>,
) -> Option<ThingRow<'a>>
    ensures { option_map thing_of result ≡ root_among rows.now.profile at.0
        (asked_by question.entry) (option_map thing_of best.entry)
        (map (λ row. image row.now) rows.now.images.now) }
{
    let mut first = best;
    for row in rows.images {
        let fits = asks_for(question, ThingRow::Image(*row)) && image_stays(row, rows.profile, at);
        first = chosen(fits, ThingRow::Image(*row), first);
    }
    first
}

fn container_among<'a>(
    rows: &StoreRows<'a>,
    at: Instant,
    question: Question<'_>,
    best: Option<ThingRow<'a>>,
) -> Option<ThingRow<'a>>
    ensures { option_map thing_of result ≡ root_among rows.now.profile at.0
        (asked_by question.entry) (option_map thing_of best.entry)
        (map (λ row. container row.now) rows.now.containers.now) }
{
    // The moment is named by the clause alone.
    let _at = at;
    let mut first = best;
    for row in rows.containers {
        let fits = asks_for(question, ThingRow::Container(*row)) && true;
        first = chosen(fits, ThingRow::Container(*row), first);
    }
    first
}

fn lease_among<'a>(
    rows: &StoreRows<'a>,
    at: Instant,
    question: Question<'_>,
    best: Option<ThingRow<'a>>,
) -> Option<ThingRow<'a>>
    ensures { option_map thing_of result ≡ root_among rows.now.profile at.0
        (asked_by question.entry) (option_map thing_of best.entry)
        (map (λ row. lease row.now) rows.now.leases.now) }
{
    let mut first = best;
    for row in rows.leases {
        let fits = asks_for(question, ThingRow::Lease(*row)) && lease_stays(row, at);
        first = chosen(fits, ThingRow::Lease(*row), first);
    }
    first
}

// The first image, container or lease that is asked for and hasn't ended.
pub(crate) fn first_root<'a>(
    rows: &StoreRows<'a>,
    at: Instant,
    question: Question<'_>,
) -> Option<ThingRow<'a>>
    ensures { option_map thing_of result
        ≡ first_root (records_of rows.now) at.0 (asked_by question.entry) }
{
    let first = image_among(rows, at, question, None);
    let first = container_among(rows, at, question, first);
    lease_among(rows, at, question, first)
}
