//! What holds of the definition of a script's output.
ghost use Rattle.scripts.specs.Changes.{CollectionsWithoutEffect};
ghost use Rattle.scripts.specs.EventLaws.{EachEventHasThisStep, NoEventHasAnotherStep};
ghost use Rattle.scripts.specs.ScriptLaws.{WhatAnswersIsAnOutput, EachStoreIsSound};
ghost use Rattle.scripts.specs.WorkedScripts.{RequestsAreAnswered, ACollectionIsAnswered, AnEndIsExplained};
ghost use Rattle.scripts.specs.OneOutput.{EachExplanationIsOne, EachImpactIsOne, EachScriptHasOneOutput};

/// If no removal fails, the computed step of an event is a step of the definitions, and the event
/// has no other.
pub fn outputs_go_by_the_steps_of_the_definitions()
    ensures step { EachEventHasThisStep }
    ensures alone { NoEventHasAnotherStep }
{}

/// The bytes that answer a script are its computed outputs, and no other bytes are. So each script
/// has an answer. Each store on the way is sound.
pub fn what_answers_is_the_output()
    ensures outputs { WhatAnswersIsAnOutput }
    ensures stores { EachStoreIsSound }
{}

/// Each question has one right answer: what keeps a row of a sound store, and what would be removed
/// without a row of any store. So two runs that are refused alike have one output.
pub fn each_script_has_one_output()
    ensures explanations { EachExplanationIsOne }
    ensures impacts { EachImpactIsOne }
    ensures output { EachScriptHasOneOutput }
{}

/// Three scripts and what answers them, byte for byte: requests, an empty line and a line that is
/// no request; a collection; and what keeps a lease's content at its end and after it.
pub fn worked_scripts_are_answered()
    ensures requests { RequestsAreAnswered }
    ensures collection { ACollectionIsAnswered }
    ensures explanation { AnEndIsExplained }
{}

/// A collection whose report names no removed row or object, and no failed removal, leaves the
/// store as it was.
pub fn a_collection_without_effect_changes_nothing()
    ensures same { CollectionsWithoutEffect }
{}
