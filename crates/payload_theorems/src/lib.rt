// Feeding, one record and lists of them, and every question about finality do not look at payloads: claims.
#![tactic(auto)]

ghost use Rattle.payload_theorems.specs.Claims.{Claims};

pub fn claims()
    ensures { Claims }
{}
