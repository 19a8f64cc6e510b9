// The pending table over a list of items: layout, order, cuts and votes. Definitions and laws. Follows range_map.rs.
#![tactic(auto)]

ghost use Rattle.pending_spec.specs.Examples.{Examples};

// Votes over items, and the words of a table: worked examples; 01's marked card stands in crate cards.
pub fn examples()
    ensures { Examples }
{}
