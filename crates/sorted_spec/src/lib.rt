// A sorted list of locators answered in one pass with the index: definitions and their laws. The function does nothing: its contract is the
// claims, so that no check passes without their proofs.
#![tactic(auto)]

ghost use Rattle.sorted_spec.specs.Claims.{Claims};

pub fn claims()
    ensures { Claims }
{}
