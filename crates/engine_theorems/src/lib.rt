// What holds of an engine after any list of feeds beside the third statement: what it stores, and what is not pending. The function does nothing: its
// contract is the claim.
#![tactic(auto)]

ghost use Rattle.engine_theorems.specs.Claims.{Claims};

pub fn claims()
    ensures { Claims }
{}
