// What finality slips mean: the claims about reading and writing them.
#![tactic(auto)]

ghost use Rattle.slip_spec.specs.Claims.{Claims};

// A slip is what its bytes say, an accepted one certifies, and the written one names all by the shortest, then first, path.
pub fn claims()
    ensures { Claims }
{}
