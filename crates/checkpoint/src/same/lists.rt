//! Lists of rows, compared place by place.
ghost use Rattle.std.specs.Prelude.{◌≡◌, ◌↔◌, IsTrue, map, take};

use crate::same::compared::Compared;

/// Whether both lists have the same rows, in the same order.
pub(crate) fn are_same<R: Compared>(rows: &[&R], others: &[&R]) -> bool
    ensures { IsTrue result ↔ (map (λ row. row.now) rows.now ≡ map (λ row. row.now) others.now) }
{
    if rows.len() != others.len() {
        return false;
    }
    for place in 0..rows.len() {
        if !rows[place].is_same(others[place]) {
            return false;
        }
    }
    true
}
