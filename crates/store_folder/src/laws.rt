//! What holds of the two files of a folder.
ghost use Rattle.store_folder.specs.Laws.{FilesTellOneThing, AWitnessLeavesTheLines, AnOwnWitnessLeavesTheLines, LostBytesLeaveTheLines, ACardLeavesTheLines, ASelectorLeavesEither};

use journal::laws::files_of_a_store_fit;

/// What a start finds in two files is all that it may find there.
pub fn files_tell_one_thing()
    ensures one { FilesTellOneThing }
{}

/// A note that is put into a page, be it cut short by a crash, leaves the lines that a start finds:
/// a witness of the file that counts in either page, and the card of a checkpoint in the other one.
pub fn notes_leave_the_lines()
    ensures witness { AWitnessLeavesTheLines }
    ensures own { AnOwnWitnessLeavesTheLines }
    ensures card { ACardLeavesTheLines }
{
    files_of_a_store_fit();
}

/// Bytes that are lost of the other file, as where it is blanked, leave the lines.
pub fn lost_bytes_leave_the_lines()
    ensures lost { LostBytesLeaveTheLines }
{
    files_of_a_store_fit();
}

/// When the other file is selected, which has a checkpoint, a crash leaves the lines that were
/// found, or those of the checkpoint.
pub fn a_selector_leaves_either()
    ensures either { ASelectorLeavesEither }
{
    files_of_a_store_fit();
}
