// Blocks of our own: what is given, how its accepts are joined, and what writing it means, with the claims about these. Follows types.rs.
#![tactic(auto)]

ghost use Rattle.draft_spec.specs.Claims.{Claims};
ghost use Rattle.draft_spec.specs.Examples.{Examples};

// Reading a written record shows all that was given, and a record without neighbouring accepts is written anew byte for byte.
pub fn claims()
    ensures { Claims × Examples }
{}
