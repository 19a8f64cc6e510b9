// The two lists of final locators, the wide and the ordinary one, in both readings of a reject: definitions, and the claims of what they mean.
#![tactic(auto)]

ghost use Rattle.list_readings_spec.specs.Claims.{Claims};
ghost use Rattle.list_readings_spec.specs.Examples.{Examples};

// Which list of final locators a call asks for: those that name a stored share, or all.
#[derive(Clone, Copy)]
pub enum FinalList {
    Ordinary,
    Wide,
}

// Each list shows exactly its locators, ascending, by single questions and in stretches; how the new reading differs from the old one, and where it does not.
pub fn claims()
    ensures { Claims }
{}

// A range with one locator withdrawn, listed in both readings.
pub fn examples()
    ensures { Examples }
{}
