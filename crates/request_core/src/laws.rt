//! Laws of requests and histories, each as the contract of a function that does nothing.
ghost use Rattle.meta_types.specs.Holdings.{WhatIsThereIsHeld, WhatIsHeldStays};
ghost use Rattle.request_core.specs.Laws.{ARequestKeepsAStoreSound, ARemovalByNameKeepsAStoreSound, AnEventKeepsAStoreSound, AHistoryKeepsAStoreSound};

/// A request, a removal by name and each event keep a sound store sound, whatever failed, and so
/// does a whole history.
pub fn histories_keep_stores_sound()
    ensures a_request_keeps_a_store_sound { ARequestKeepsAStoreSound }
    ensures a_removal_by_name_keeps_a_store_sound { ARemovalByNameKeepsAStoreSound }
    ensures an_event_keeps_a_store_sound { AnEventKeepsAStoreSound }
    ensures a_history_keeps_a_store_sound { AHistoryKeepsAStoreSound }
{}

/// If a line's lease is to hold the object that the line names, and no fault refuses the line, the
/// lease holds the object afterwards, whether the line made it or found it there. Each collection
/// at which the lease hasn't expired keeps it.
pub fn what_is_there_is_held_and_stays()
    ensures what_is_there_is_held { WhatIsThereIsHeld }
    ensures what_is_held_stays { WhatIsHeldStays }
{}
