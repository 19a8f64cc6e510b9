// Stretches of a list of final locators: definitions, and the claims of what they mean.
#![tactic(auto)]

ghost use Rattle.list_stretches_spec.specs.Claims.{Claims};

// Stretches are the longest there are, and one after the other they are what the single questions, asked on, would give.
pub fn claims()
    ensures { Claims }
{}
