// Which stored shares are loadable. The function does nothing: its contract is the claims about the definitions.
#![tactic(auto)]

ghost use Rattle.load_spec.specs.Claims.{Claims};

pub fn claims()
    ensures { Claims }
{}
