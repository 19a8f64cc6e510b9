// Many records fed with the index by one call: two calls are one, and the mission's third statement holds of engines that were fed so.
#![tactic(auto)]

ghost use Rattle.index_feed_theorems.specs.Joined.{Claims};
ghost use Rattle.index_feed_theorems.specs.Fed.{IndexedRecordsStatement};

// What the call means beside other calls, and that the third statement holds.
pub fn claims()
    ensures claims { Claims }
    ensures indexed_records_statement { IndexedRecordsStatement }
{}
