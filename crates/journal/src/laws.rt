//! What holds of the text of journals.
ghost use Rattle.journal.specs.Laws.{WhatIsWrittenIsRead, ATornGroupIsNotThere, NothingIsSkipped, AZeroIsTold, AChangeIsTold, NoiseIsTold, TheLastSumTellsAll};
ghost use Rattle.journal.specs.Growth.{ZerosChangeNothing};
ghost use Rattle.journal.specs.Bonds.{WhatACrashLeavesFits, AWitnessLeavesThemOne, ACardLeavesThemOne, LostNotesLeaveThemOne, AChoiceTurnsThem, WhatIsWitnessedIsFound};
ghost use Rattle.journal.specs.WorkedFiles.{AFileHasItsGroups, TornGroupsAreLeftOut, ACrashTearsAGroup, ChangedBytesAreDamage, AChangedFileHasNoGroups, ACheckpointIsRead};

/// A journal is read as it was written. If a crash lost bytes of the last group, the journal is
/// read without that group; if the group is whole, it is read too. Neither is found as damage.
pub fn a_crash_leaves_whole_groups()
    ensures written { WhatIsWrittenIsRead }
    ensures torn { ATornGroupIsNotThere }
{}

/// The groups that are read as committed stand in the file from its front on, line by line. If no
/// damage is found, no commit line of a later group follows them.
pub fn nothing_is_skipped()
    ensures skipped { NothingIsSkipped }
{}

/// A byte that is lost before a whole group is found as damage, and so is each byte that no UTF-8
/// text has. So is each byte that is changed to another, or two texts have one SHA-256.
pub fn damage_is_told()
    ensures zero { AZeroIsTold }
    ensures change { AChangeIsTold }
    ensures noise { NoiseIsTold }
{}

/// Two journals of as many groups with one last sum are equal, or two texts have one SHA-256.
pub fn the_last_sum_tells_all()
    ensures all { TheLastSumTellsAll }
{}

/// If a file is made larger by zeros, the same is found in it, be it sound or damaged.
pub fn zeros_change_nothing()
    ensures found { ZerosChangeNothing }
{}

/// Two files of a store fit, whatever a crash left of the notes in their pages, at each step of a
/// run and of a checkpoint.
pub fn files_of_a_store_fit()
    ensures fits { WhatACrashLeavesFits }
    ensures witness { AWitnessLeavesThemOne }
    ensures card { ACardLeavesThemOne }
    ensures lost { LostNotesLeaveThemOne }
    ensures turns { AChoiceTurnsThem }
{}

/// A witness is found in each file to which groups were added since it was put: so no start refuses
/// a file for it that no disk damaged.
pub fn a_witness_is_found()
    ensures found { WhatIsWitnessedIsFound }
{}

/// Small files and what is found in them, byte for byte: two groups, and a third one behind them
/// that is whole or torn; two groups of which a byte was changed or lost; and a checkpoint with a
/// group behind it.
pub fn worked_files_are_read()
    ensures groups { AFileHasItsGroups }
    ensures torn { TornGroupsAreLeftOut }
    ensures crash { ACrashTearsAGroup }
    ensures changed { ChangedBytesAreDamage }
    ensures none { AChangedFileHasNoGroups }
    ensures checkpoint { ACheckpointIsRead }
{}
