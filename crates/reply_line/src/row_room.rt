//! Room for the longest row of a listing, asked for before the first byte of its reply is written.
ghost use Rattle.std.specs.Prelude.{None};
ghost use Rattle.meta_types.specs.Faults.{Refuses};

use crate::blocks::{BLOCK_ROOM, FULL};
use crate::items::is_plain;
use meta_types::{Data, Fault, Labels, ReplyRow, ShownRow};

// What a row takes but for its labels and its data: at most two names of 1,024 bytes, each escaped
// by another, and what stands beside them.
const ROW_ROOM: usize = 4608;

// What labels and data may take that find room in each block of `BLOCK_ROOM`.
const SHORT: usize = BLOCK_ROOM - FULL - ROW_ROOM;

// What a text takes at most, without a look at its bytes.
fn most_room(text: &str) -> usize {
    text.len().saturating_mul(6).saturating_add(8)
}

// What a text takes: its bytes, its escapes, and the quotes and marks beside it.
fn text_room(text: &str) -> usize {
    let mut room = text.len().saturating_add(8);
    for byte in text.as_bytes() {
        if !is_plain(*byte) {
            room = room.saturating_add(5);
        }
    }
    room
}

fn labels_room(labels: &Labels) -> usize {
    let mut room = 0usize;
    for (key, value) in labels.entries() {
        room = room.saturating_add(text_room(key));
        room = room.saturating_add(text_room(value));
    }
    room
}

// The same of labels.
fn most_labels_room(labels: &Labels) -> usize {
    let mut room = 0usize;
    for (key, value) in labels.entries() {
        room = room.saturating_add(most_room(key));
        room = room.saturating_add(most_room(value));
    }
    room
}

// Few rows have texts that are long enough to be looked at.
fn parts_room(labels: &Labels, extra: &Data) -> usize {
    let most = most_labels_room(labels).saturating_add(most_room(extra.text()));
    if most <= SHORT {
        return most;
    }
    labels_room(labels).saturating_add(text_room(extra.text()))
}

// What a row's labels and its data take.
fn row_room(row: &ReplyRow) -> usize {
    match row {
        ReplyRow::Image(row) => parts_room(&row.labels, &row.extra),
        ReplyRow::Container(row) => parts_room(&row.labels, &row.extra),
        ReplyRow::Content(row) => parts_room(&row.labels, &row.extra),
        ReplyRow::Ingest(row) => text_room(row.extra.text()),
        ReplyRow::Snap(row) => parts_room(&row.labels, &row.extra),
        ReplyRow::Lease(_, labels, extra) => parts_room(labels, extra),
    }
}

/// Asks for the room that the longest of these rows takes in a block, so that `write_rows` can do
/// without more. Most rows have it in a block of `BLOCK_ROOM`. That the block doesn't grow is tested
/// alone.
pub fn room_for_rows(block: &mut Vec<u8>, rows: &[ShownRow]) -> Result<(), Fault>
    ensures { Refuses result None }
{
    block.clear();
    let mut longest = 0usize;
    for row in rows {
        longest = longest.max(row_room(&row.row));
    }
    block.reserve(longest.saturating_add(FULL + ROW_ROOM))?;
    Ok(())
}
