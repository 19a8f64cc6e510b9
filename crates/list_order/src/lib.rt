// Whether a locator, whose reference stands at a position of the store, comes after another. References are compared where they stand, rounds first, since
// these differ most often.
#![tactic(auto)]

ghost use Rattle.std.specs.Prelude.{◌≡◌, ◌+◌, ◌≤◌, length};
ghost use Rattle.record_spec.specs.Reference.{locator, locator_before};
ghost use Rattle.types.specs.Values.{as_locator, as_maybe};
ghost use Rattle.record_reference_bytes.specs.Step.{reference_at};
ghost use Rattle.final_spec.specs.NextFinal.{is_after};
ghost use Rattle.list_order.specs.Row.{is_after_best};

use types::TransactionLocator;

// Whether the locator of the reference at a position and an offset comes after another.
fn comes_after(store: &[u8], at: usize, offset: u64, given: TransactionLocator) -> bool
    requires { at + 48 ≤ length store.now }
    ensures { result ≡ locator_before (as_locator given) (locator (reference_at store.now at) offset) }
{
    let round = base::read_u64(store, at + 8);
    if round < given.block.round.0 {
        return false;
    }
    if given.block.round.0 < round {
        return true;
    }
    let block = record_reference_bytes::read_reference(store, at);
    types::locator_before(given, TransactionLocator { block, offset })
}

// Whether it comes after the given one; every locator comes after none.
pub fn follows(store: &[u8], at: usize, offset: u64, last: Option<TransactionLocator>) -> bool
    requires { at + 48 ≤ length store.now }
    ensures { result ≡ is_after (as_maybe last) (locator (reference_at store.now at) offset) }
{
    let Some(given) = last else {
        return true;
    };
    comes_after(store, at, offset, given)
}

// Whether it comes after the best so far; no locator comes after none.
pub fn is_after_best(store: &[u8], at: usize, offset: u64, best: Option<TransactionLocator>) -> bool
    requires { at + 48 ≤ length store.now }
    ensures { result ≡ is_after_best (as_maybe best) (locator (reference_at store.now at) offset) }
{
    let Some(given) = best else {
        return false;
    };
    comes_after(store, at, offset, given)
}
