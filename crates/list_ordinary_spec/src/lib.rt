// The ordinary list: final locators that name a stored share. The function does nothing: its contract is the claims about the definitions.
#![tactic(auto)]

ghost use Rattle.list_ordinary_spec.specs.Claims.{Claims};

pub fn claims()
    ensures { Claims }
{}
