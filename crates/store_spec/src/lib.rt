// The store over a list of records: its layout, what is accepted, in order, lookup and payload. Definitions, claims and their laws.
#![tactic(auto)]

ghost use Rattle.store_spec.specs.Claims.{Claims};

// Next positions chain the entries in ascending reference order; a fresh store is in order, and accepting keeps it so.
pub fn claims()
    ensures { Claims }
{}
