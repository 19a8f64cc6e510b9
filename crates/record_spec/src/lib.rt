// References, locators, statements and blocks as values: their order, the record of a block as bytes, runs of shares, what is checked of a
// block by itself. Definitions, claims and their laws. Follows types.rs and threshold_clock.rs.
#![tactic(auto)]

ghost use Rattle.record_spec.specs.Claims.{Claims};
ghost use Rattle.record_spec.specs.Examples.{Examples};

// What is read is what was written, and the other way round; the orders are total.
pub fn claims()
    ensures { Claims }
{}

// Statements checked, references compared, records read and written, the clock: worked examples.
pub fn examples()
    ensures { Examples }
{}
