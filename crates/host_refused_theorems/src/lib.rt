// 01: "A refusal writes nothing", of the host's calls that write: feeding with the index, feeding many records, and both lists. The function does
// nothing: its contract is the claim. Feeding and finality have theirs in feed_bytes and host_finality.
#![tactic(auto)]

ghost use Rattle.host_refused_theorems.specs.Claims.{Claims};

pub fn claims()
    ensures { Claims }
{}
