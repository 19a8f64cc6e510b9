// The lists of final locators with the index: definitions, and the claim that they are the lists without it.
#![tactic(auto)]

ghost use Rattle.index_list_spec.specs.Claims.{Claims};

// Wherever the index agrees with the store, and so after any list of feeds with it, a list with it is the list without it.
pub fn claims()
    ensures { Claims }
{}
