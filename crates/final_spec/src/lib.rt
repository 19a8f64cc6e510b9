// Finality over a list of blocks: voters, certificates, what is final, and the claims of what these mean. Follows finalization_interpreter.rs.
#![tactic(auto)]

ghost use Rattle.final_spec.specs.Claims.{Claims};
ghost use Rattle.final_spec.specs.Examples.{Examples};

// The computed answers are what the relations say: voters, finality, the least final locator, the final list.
pub fn claims()
    ensures { Claims }
{}

// Certificates, final locators and lists over blocks: worked examples, and a certificate shown by hand; 01's marked cards stand in crate cards.
pub fn examples()
    ensures { Examples }
{}
