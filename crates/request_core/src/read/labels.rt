//! The labels that a request writes.
ghost use Rattle.std.specs.Prelude.{◌≡◌};
ghost use Rattle.meta_types.specs.Labels.{are_labels, labels_of};
ghost use Rattle.meta_types.specs.Updates.{put_pairs, takes_pairs};
ghost use Rattle.request_core.specs.Follows.{ReadsTexts, PutsTexts};

use crate::refusal::{Refusal, reading};
use meta_types::{Labels, RawLabels, RawText};
use std::alloc::Global;

/// Reads labels.
pub(crate) fn read_labels(alloc: Global, pairs: &RawLabels) -> Result<Labels, Refusal>
    ensures { ReadsTexts result (are_labels pairs.now) (labels_of pairs.now) }
{
    read_labels_over(alloc, Labels::new(alloc), pairs)
}

/// Reads labels that go over those that are there.
pub(crate) fn read_labels_over(
    alloc: Global,
    labels: Labels,
    pairs: &RawLabels,
) -> Result<Labels, Refusal>
    ensures { ReadsTexts result (takes_pairs pairs.now labels) (put_pairs pairs.now labels) }
{
    let mut labels = labels;
    labels_over(alloc, &mut labels, pairs.entries())?;
    Ok(labels)
}

// Puts the labels that such pairs write. The last pair is put first, so that of a key that stands
// twice the first counts.
fn labels_over(
    alloc: Global,
    labels: &mut Labels,
    pairs: &[(RawText<'_>, RawText<'_>)],
) -> Result<(), Refusal>
    ensures { PutsTexts result (takes_pairs pairs.now labels.old) (labels.new ≡ put_pairs pairs.now labels.old) }
{
    let mut place = pairs.len();
    while 0 < place {
        place -= 1;
        let pair = &pairs[place];
        if let Err(fault) = labels.put(alloc, pair.0.text(), pair.1.text()) {
            return Err(reading(fault));
        }
    }
    Ok(())
}
