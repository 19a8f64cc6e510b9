// Everything voted or final ignores the time of a block's creation and the edition of its record: claims.
#![tactic(auto)]

ghost use Rattle.edition_theorems.specs.Claims.{Claims};

// Records of both editions are accepted as their blocks, and lists of feeds that differ in times alone give the same events and finals.
pub fn claims()
    ensures { Claims }
{}
