// Feeding over a list of records and a list of items: events, votes, registration, refusals, the pending question. Definitions and laws.
// Follows committee.rs.
#![tactic(auto)]

ghost use Rattle.feed_spec.specs.Examples.{Examples};

// Shares registered and votes counted over entries: worked examples; 01's marked card stands in crate cards.
pub fn examples()
    ensures { Examples }
{}
