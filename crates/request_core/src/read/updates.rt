//! What of a row a request replaces: its labels, its data, and what its kind alone has.
ghost use Rattle.std.specs.Prelude.{◌≡◌, ◌&&◌, ◌∷◌, [], true, false, None, Some, IfOk, OnOk, option_copied, option_map, is_none, unwrap_or};
ghost use Rattle.std.specs.Option.{option_map_or};
ghost use Rattle.meta_types.specs.Text.{Text};
ghost use Rattle.meta_types.specs.Labels.{LabelList};
ghost use Rattle.meta_types.specs.Data.{is_data, data_of};
ghost use Rattle.meta_types.specs.Faults.{Refuses, least_of};
ghost use Rattle.meta_types.specs.Changes.{is_allowed_if};
ghost use Rattle.meta_types.specs.Updates.{put_pairs, takes_pairs, less_labels, is_one_update, takes_update, updated};
ghost use Rattle.request_core.specs.Follows.{ReadsTexts, PutsTexts};
ghost use Rattle.request_core.specs.Made.{MakesParts};

use crate::read::labels::{read_labels, read_labels_over};
use crate::refusal::{Refusal, reading};
use lease_book::Lease;
use meta_types::{
    ContainerRow, ContentRow, Data, Digest, Fault, ImageRow, Labels, Name, RawLabels, RawText,
    RowUpdate, ShortName, SnapRow,
};
use std::alloc::Global;

/// A row whose labels and data a request may replace.
pub(crate) trait UpdatedRow {
    /// The labels of the row.
    ghost labels_in: { Self → LabelList };

    /// The data of the row.
    ghost extra_in: { Self → Text };

    /// The labels of the row.
    fn own_labels(&self) -> &Labels
        ensures { result.now ≡ labels_in self.now };

    /// The data of the row.
    fn own_extra(&self) -> &Data
        ensures { result.now ≡ extra_in self.now };
}

/// Reads data.
fn read_data(alloc: Global, text: &RawText) -> Result<Data, Refusal>
    ensures { ReadsTexts result (is_data text.now) text.now }
{
    match Data::read(alloc, text.text()) {
        Ok(read) => Ok(read),
        Err(fault) => Err(reading(fault)),
    }
}

/// Reads data that may be left out.
fn read_data_if(alloc: Global, text: &Option<RawText>) -> Result<Option<Data>, Refusal>
    ensures { ReadsTexts result (is_allowed_if is_data text.now) text.now }
{
    match text {
        Some(text) => Ok(Some(read_data(alloc, text)?)),
        None => Ok(None),
    }
}

/// Reads data that is empty where it is left out.
pub(crate) fn read_new_data(alloc: Global, text: &Option<RawText>) -> Result<Data, Refusal>
    ensures { ReadsTexts result (is_allowed_if is_data text.now) (data_of text.now) }
{
    match text {
        Some(text) => read_data(alloc, text),
        None => Ok(Data::new()),
    }
}

// A copy of labels, as a request is read.
fn read_copy(alloc: Global, labels: &Labels) -> Result<Labels, Refusal>
    ensures { ReadsTexts result true labels.now }
{
    match labels.copy(alloc) {
        Ok(labels) => Ok(labels),
        Err(_) => Err(Refusal::Reading),
    }
}

// The labels of a row, none where there is no row.
fn read_own<R: UpdatedRow>(alloc: Global, found: Option<&R>) -> Result<Labels, Refusal>
    ensures { ReadsTexts result true
        (option_map_or R.labels_in (option_copied found.entry) []) }
{
    match found {
        Some(row) => read_copy(alloc, row.own_labels()),
        None => Ok(Labels::new(alloc)),
    }
}

// Takes a label away where the pair has no value.
fn take_label(
    alloc: Global,
    labels: &mut Labels,
    pair: &(RawText<'_>, RawText<'_>),
) -> Result<(), Fault>
    ensures fault { Refuses result None }
    ensures ok { OnOk result (labels.new ≡ less_labels (pair.now ∷ []) labels.old) }
{
    if pair.1.text() == "" {
        labels.put(alloc, pair.0.text(), "")?;
    }
    Ok(())
}

// Takes away the labels of all pairs without a value.
fn take_labels(
    alloc: Global,
    labels: &mut Labels,
    pairs: &[(RawText<'_>, RawText<'_>)],
) -> Result<(), Refusal>
    ensures { PutsTexts result true (labels.new ≡ less_labels pairs.now labels.old) }
{
    let mut place = pairs.len();
    while 0 < place {
        place -= 1;
        let pair = &pairs[place];
        if let Err(_) = take_label(alloc, labels, pair) {
            return Err(Refusal::Reading);
        }
    }
    Ok(())
}

// The labels with pairs put over them. Those that go are taken away first, so that what they leave
// room for can be put.
fn read_put(alloc: Global, labels: Labels, pairs: &RawLabels) -> Result<Labels, Refusal>
    ensures { ReadsTexts result (takes_pairs pairs.now (less_labels pairs.now labels))
        (put_pairs pairs.now (less_labels pairs.now labels)) }
{
    let mut labels = labels;
    take_labels(alloc, &mut labels, pairs.entries())?;
    read_labels_over(alloc, labels, pairs)
}

// The labels that a row with these is to have.
fn read_update(alloc: Global, update: &RowUpdate, labels: Labels) -> Result<Labels, Refusal>
    ensures { ReadsTexts result (is_one_update update.now && takes_update update.now labels)
        (updated update.now labels) }
{
    match (&update.labels, &update.put) {
        (Some(_), Some(_)) => Err(Refusal::By(Fault::InvalidArgument)),
        (Some(pairs), None) => read_labels(alloc, pairs),
        (None, Some(pairs)) => read_put(alloc, labels, pairs),
        (None, None) => Ok(labels),
    }
}

// The data that a row is to have.
fn extra_after<R: UpdatedRow>(extra: Option<Data>, row: &R) -> Result<Data, Fault>
    ensures fault { Refuses result None }
    ensures ok { IfOk result (λ after. after ≡ unwrap_or extra (R.extra_in row.now)) }
{
    match extra {
        Some(extra) => Ok(extra),
        None => Ok(row.own_extra().copy()?),
    }
}

/// The labels and the data that a request gives the row that is found.
pub(crate) fn make_parts<R: UpdatedRow>(
    alloc: Global,
    update: &RowUpdate,
    found: Option<&R>,
) -> Result<(Labels, Data), Refusal>
    ensures { MakesParts R.labels_in R.extra_in update.now (option_copied found.entry) result }
{
    let own = read_own(alloc, found)?;
    let labels = read_update(alloc, update, own)?;
    let extra = read_data_if(alloc, &update.extra)?;
    match found {
        Some(row) => {
            let extra = extra_after(extra, row)?;
            Ok((labels, extra))
        }
        None => Err(Refusal::By(Fault::NotFound)),
    }
}

/// The target that an image is to have.
pub(crate) fn target_after(
    target: Option<Digest>,
    found: Option<&ImageRow>,
) -> Result<Digest, Fault>
    ensures fault { Refuses result
        (least_of false (is_none (option_copied found.entry)) false false) }
    ensures ok { IfOk result (λ after. Some after
        ≡ option_map (λ row. unwrap_or target row.target) (option_copied found.entry)) }
{
    match (target, found) {
        (Some(target), Some(_)) => Ok(target),
        (None, Some(row)) => Ok(row.target.copy()?),
        (_, None) => Err(Fault::NotFound),
    }
}

/// The snapshot that a container is to run on, if any.
pub(crate) fn snapshot_after(
    snapshot: Option<(ShortName, Name)>,
    found: Option<&ContainerRow>,
) -> Result<Option<(ShortName, Name)>, Fault>
    ensures fault { Refuses result
        (least_of false (is_none (option_copied found.entry)) false false) }
    ensures ok { IfOk result (λ after. Some after
        ≡ option_map (λ row. option_map_or Some snapshot row.snapshot)
        (option_copied found.entry)) }
{
    match (snapshot, found) {
        (Some(snapshot), Some(_)) => Ok(Some(snapshot)),
        (None, Some(row)) => Ok(row.snapshot.clone()?),
        (_, None) => Err(Fault::NotFound),
    }
}

impl UpdatedRow for ImageRow {
    ghost labels_in = { λ row. row.labels };

    ghost extra_in = { λ row. row.extra };

    fn own_labels(&self) -> &Labels {
        &self.labels
    }

    fn own_extra(&self) -> &Data {
        &self.extra
    }
}

impl UpdatedRow for ContainerRow {
    ghost labels_in = { λ row. row.labels };

    ghost extra_in = { λ row. row.extra };

    fn own_labels(&self) -> &Labels {
        &self.labels
    }

    fn own_extra(&self) -> &Data {
        &self.extra
    }
}

impl UpdatedRow for ContentRow {
    ghost labels_in = { λ row. row.labels };

    ghost extra_in = { λ row. row.extra };

    fn own_labels(&self) -> &Labels {
        &self.labels
    }

    fn own_extra(&self) -> &Data {
        &self.extra
    }
}

impl UpdatedRow for SnapRow {
    ghost labels_in = { λ row. row.labels };

    ghost extra_in = { λ row. row.extra };

    fn own_labels(&self) -> &Labels {
        &self.labels
    }

    fn own_extra(&self) -> &Data {
        &self.extra
    }
}

impl UpdatedRow for Lease {
    ghost labels_in = { λ row. row.labels };

    ghost extra_in = { λ row. row.extra };

    fn own_labels(&self) -> &Labels {
        self.labels()
    }

    fn own_extra(&self) -> &Data {
        self.extra()
    }
}
