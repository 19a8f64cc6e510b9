// The marked edge cards of document 01, one proved table: the crate is proved only where every card of it holds.
#![tactic(auto)]

ghost use Rattle.card_theorems.specs.Marked.{MarkedCards};

pub fn marked_cards()
    ensures { MarkedCards }
{}
