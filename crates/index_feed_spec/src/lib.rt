// Feeding with the index beside the store: definitions and their laws. The function does nothing: its contract is the claims, so that no check
// passes without their proofs.
#![tactic(auto)]

ghost use Rattle.index_feed_spec.specs.Claims.{Claims};

pub fn claims()
    ensures { Claims }
{}
