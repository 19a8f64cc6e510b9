// Whether a range matters for the locators from a last one on up to a bound.
#![tactic(auto)]

ghost use Rattle.std.specs.Prelude.{◌≡◌};
ghost use Rattle.types.specs.Values.{as_range, as_maybe};
ghost use Rattle.list_reach.specs.Reach.{in_reach};

use types::{TransactionLocator, TransactionLocatorRange};

// Whether a range is not empty, ends after the last locator and does not start after the bound: one that covers a locator of the window is such.
pub fn in_reach(
    last: Option<TransactionLocator>,
    bound: Option<TransactionLocator>,
    range: TransactionLocatorRange,
) -> bool
    ensures { result ≡ in_reach (as_maybe last) (as_maybe bound) (as_range range) }
{
    let block = range.block;
    let start = range.offset_start_inclusive;
    let end = range.offset_end_exclusive;
    if end <= start {
        return false;
    }
    if !list_after::is_after(last, TransactionLocator { block, offset: end }) {
        return false;
    }
    let Some(best) = bound else {
        return true;
    };
    !types::locator_before(
        best,
        TransactionLocator {
            block,
            offset: start,
        },
    )
}
