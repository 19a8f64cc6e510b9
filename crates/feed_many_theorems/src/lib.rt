// What a call with many records means beside other calls, and the mission's third statement of engines that were fed this way.
#![tactic(auto)]

ghost use Rattle.feed_many_theorems.specs.Claims.{Claims};
ghost use Rattle.feed_many_theorems.specs.Fed.{RecordsStatement};

// What the call means beside other calls.
pub fn calls_claimed()
    ensures { Claims }
{}

// The third statement holds of engines that were fed this way.
pub fn claims()
    ensures { RecordsStatement }
{}
