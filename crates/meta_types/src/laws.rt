//! Laws of the definitions, each as the contract of a function that does nothing. They say what
//! every collection promises, and compute worked examples; nothing else forces them.
ghost use Rattle.meta_types.specs.Promises.{SomeTestTells, ACollectionHasOneOutcome, ADryRunHasOneReport, NothingReachedIsRemoved, WhatIsNotReachedIsRemoved, OwnedObjectsStay, UnownedObjectsGo, RemovedSnapshotsAreChildfirst, PlannedSnapshotsAreChildfirst, ASecondCollectionChangesNothing, ACollectedStoreIsSound, ThisTestTells};
ghost use Rattle.meta_types.specs.EachKind.{ACollectionDividesTheRows, ACollectionDividesAll, ADryRunTellsWhatACollectionWould};
ghost use Rattle.meta_types.specs.Impacts.{ARemovalMakesNoPath};
ghost use Rattle.meta_types.specs.Worked.Times.{TimesAreRead, OthersAreNoTimes, EndsAreRead};
ghost use Rattle.meta_types.specs.Worked.Images.{AnImageKeepsItsContent, ACycleGoes, ACycleUnderAnImageStays, BothModesAreScanned, AFlatLeaseFollowsNoLabels, ALeaseHoldsAtItsExpiry, AnExpiredLeaseGoes};
ghost use Rattle.meta_types.specs.Worked.Objects.{AFlatLeaseKeepsParents, ChildrenGoBeforeParents, AnIngestHoldsForADay, AnIngestGoesAfterADay, OnlyReferenceKeysReference, ContainersAndRootLabelsHold};
ghost use Rattle.meta_types.specs.Worked.Later.{AnEmptyStoreIsCollected, AnImageHoldsAtItsExpiry, AnExpiredImageGoes, ALeaseGoesWithACollection};
ghost use Rattle.meta_types.specs.Worked.Failures.{TheFirstRemovalFails, TheSecondRemovalFails, TheThirdRemovalFails, TheLastRemovalFails, ALaterCollectionRemovesTheRest};

/// For each store and moment some test tells where paths end, so a collection is always defined.
/// Collections with the same failures give one report and leave one store; dry runs give one
/// report.
pub fn collections_have_one_outcome()
    ensures some_test_tells { SomeTestTells }
    ensures a_collection_has_one_outcome { ACollectionHasOneOutcome }
    ensures a_dry_run_has_one_report { ADryRunHasOneReport }
{}

/// The computed test `reached_in` tells where paths end, for each store and moment.
pub fn paths_are_found()
    ensures { ThisTestTells }
{}

/// A collection of a sound store removes nothing that an image, a container, an unexpired lease or
/// ingest or a root label leads to.
pub fn nothing_reached_is_removed()
    ensures { NothingReachedIsRemoved }
{}

/// A collection removes each row that none of these leads to, and each blob that no remaining
/// content owns, unless its removal failed.
pub fn what_is_not_reached_is_removed()
    ensures { WhatIsNotReachedIsRemoved }
{}

/// Backend snapshots and the objects of ingests stay while a remaining row owns them. If none does,
/// they are removed, unless their removal failed or, for a snapshot, the removal of a descendant.
pub fn objects_stay_with_their_owners()
    ensures owned_objects_stay { OwnedObjectsStay }
    ensures unowned_objects_go { UnownedObjectsGo }
{}

/// A report names no parent before its child, and with a parent all its children.
pub fn reports_name_children_first()
    ensures removed_snapshots_are_childfirst { RemovedSnapshotsAreChildfirst }
    ensures planned_snapshots_are_childfirst { PlannedSnapshotsAreChildfirst }
{}

/// A second collection at the same moment removes nothing more, and keeps what the first kept.
pub fn a_second_collection_changes_nothing()
    ensures { ASecondCollectionChangesNothing }
{}

/// A collection of a sound store leaves a sound store, whatever removals failed.
pub fn a_collected_store_is_sound()
    ensures { ACollectedStoreIsSound }
{}

/// A collection of a sound store keeps of each kind of rows exactly those that the definitions
/// name, names the others in its report, and counts both. If no removal failed, this holds of
/// objects too. A dry run reports what such a collection would do.
pub fn collections_divide_each_kind()
    ensures rows { ACollectionDividesTheRows }
    ensures all { ACollectionDividesAll }
    ensures dry_runs { ADryRunTellsWhatACollectionWould }
{}

/// A path of the store without a row is a path of the store with it, so a removal can't keep
/// anything that a collection would have removed.
pub fn a_removal_makes_no_path()
    ensures { ARemovalMakesNoPath }
{}

/// The worked times are read as their moments, as RFC 3339 and our years have them; the other
/// worked texts are read as no moment.
pub fn times_are_read()
    ensures times { TimesAreRead }
    ensures others { OthersAreNoTimes }
{}

/// The text of an end up to the year 9998 is read as that end.
pub fn ends_are_read()
    ensures { EndsAreRead }
{}

/// An image keeps its content and what that references, also in a cycle; a cycle that nothing leads
/// to is removed. Only a label whose key is one of references references.
pub fn images_keep_content()
    ensures an_image_keeps_its_content { AnImageKeepsItsContent }
    ensures a_cycle_goes { ACycleGoes }
    ensures a_cycle_under_an_image_stays { ACycleUnderAnImageStays }
    ensures only_reference_keys_reference { OnlyReferenceKeysReference }
{}

/// A lease keeps what it holds up to its expiry, the moment included, and is removed after it. A
/// flat lease follows no labels. Content that an image and a flat lease hold is scanned in both
/// modes.
pub fn leases_hold_until_their_expiry()
    ensures both_modes_are_scanned { BothModesAreScanned }
    ensures a_flat_lease_follows_no_labels { AFlatLeaseFollowsNoLabels }
    ensures a_lease_holds_at_its_expiry { ALeaseHoldsAtItsExpiry }
    ensures an_expired_lease_goes { AnExpiredLeaseGoes }
{}

/// A snapshot that a flat lease holds keeps all its parents. A container keeps its snapshot, and a
/// root label its content. Chains that nothing holds are removed children first.
pub fn snapshots_keep_their_parents()
    ensures a_flat_lease_keeps_parents { AFlatLeaseKeepsParents }
    ensures children_go_before_parents { ChildrenGoBeforeParents }
    ensures containers_and_root_labels_hold { ContainersAndRootLabelsHold }
{}

/// An ingest without a lease keeps itself and what it expects for a day, the end included, and is
/// removed after it.
pub fn ingests_hold_for_a_day()
    ensures an_ingest_holds_for_a_day { AnIngestHoldsForADay }
    ensures an_ingest_goes_after_a_day { AnIngestGoesAfterADay }
{}

/// In profile 2 an image keeps its content up to its expiry, the moment included, and is removed
/// after it.
pub fn images_expire_in_profile_two()
    ensures an_empty_store_is_collected { AnEmptyStoreIsCollected }
    ensures an_image_holds_at_its_expiry { AnImageHoldsAtItsExpiry }
    ensures an_expired_image_goes { AnExpiredImageGoes }
{}

/// A removal of a lease with its collection is one event; a second one is refused with NotFound.
pub fn a_lease_goes_with_a_collection()
    ensures { ALeaseGoesWithACollection }
{}

/// If the device fails a removal in a chain of snapshots that nothing holds, those above the failed
/// one are kept too; a later collection removes the rest.
pub fn a_failed_removal_keeps_what_is_above()
    ensures the_first_removal_fails { TheFirstRemovalFails }
    ensures the_second_removal_fails { TheSecondRemovalFails }
    ensures the_third_removal_fails { TheThirdRemovalFails }
    ensures the_last_removal_fails { TheLastRemovalFails }
    ensures a_later_collection_removes_the_rest { ALaterCollectionRemovesTheRest }
{}
