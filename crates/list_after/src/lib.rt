// A locator or none: where a list goes on, or what it has next.
#![tactic(auto)]

ghost use Rattle.std.specs.Prelude.{◌≡◌};
ghost use Rattle.types.specs.Values.{as_locator, as_maybe};
ghost use Rattle.final_spec.specs.NextFinal.{is_after};

use types::TransactionLocator;

// Whether a locator comes after the given one; every locator comes after none.
pub fn is_after(last: Option<TransactionLocator>, locator: TransactionLocator) -> bool
    ensures { result ≡ is_after (as_maybe last) (as_locator locator) }
{
    let Some(given) = last else {
        return true;
    };
    types::locator_before(given, locator)
}
