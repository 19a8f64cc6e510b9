// The next locator of a list of final ones: of the ordinary list and of the wide one, in either reading of a reject. Follows finalization_interpreter.rs.
#![tactic(auto)]

ghost use Rattle.std.specs.Prelude.{◌≡◌, true, false};
ghost use Rattle.final_spec.specs.NextFinal.{next_final};
ghost use Rattle.list_ordinary_spec.specs.FinalShares.{next_final_share};
ghost use Rattle.final_readings_spec.specs.Readings.{withdrawing};
ghost use Rattle.final_readings_spec.specs.Answers.{as_reading};
ghost use Rattle.list_readings_spec.specs.Answers.{is_ordinary};
ghost use Rattle.list_readings_spec.specs.Lists.{listing, next_listed};
ghost use Rattle.list_walk.specs.Walk.{Ready};
ghost use Rattle.final_spec.specs.Finality.{blocks_of};
ghost use Rattle.types.specs.Values.{as_maybe};
ghost use Rattle.list_next.specs.Answers.{as_next_final};

use base::Refusal;
use committee::Stake;
use final_readings_spec::Reading;
use list_lanes::Wanted;
use list_readings_spec::FinalList;
use types::TransactionLocator;

// The least locator of the list after a given one over a store in order, by a sweep over the edges of its blocks' ranges.
fn next_after(
    stakes: &[u64],
    total: Stake,
    store: &[u8],
    order: &[u64],
    list: FinalList,
    reading: Reading,
    after: Option<TransactionLocator>,
) -> Option<TransactionLocator>
    requires { Ready stakes.now total.0 store.now order.now }
    ensures { as_maybe result ≡ (listing (is_ordinary list) (as_reading reading) stakes.now (blocks_of store.now)).next (as_maybe after) }
{
    let mut sets = [0u64; list_include_sets::WORDS];
    list_include_sets::note_includes(store, order, &mut sets);
    let wanted = Wanted { reading, list };
    list_shown::next_from(stakes, total, store, order, &sets, wanted, after)
}

// The least locator after a given one, or from the start, that a list shows in a reading, or none (5, 10).
pub fn next_listed(
    stakes: &[u64],
    store: &[u8],
    list: FinalList,
    reading: Reading,
    after: Option<TransactionLocator>,
) -> Result<Option<TransactionLocator>, Refusal>
    ensures { as_next_final result ≡ next_listed (is_ordinary list) (as_reading reading) stakes.now store.now (as_maybe after) }
{
    let Ok(total) = committee::new_committee(stakes) else {
        return Err(Refusal::BrokenCommittee);
    };
    if !store_order::in_order(stakes, store) {
        return Err(Refusal::StoreNotInOrder);
    }
    let mut order = [0u64; types::MAX_BLOCKS];
    let count = final_block_votes::sorted_positions(store, &mut order);
    let next = next_after(stakes, total, store, &order[..count], list, reading, after);
    Ok(next)
}

// The least final stored share after a given locator, or from the start. Asked on until none it gives the ordinary list.
pub fn next_final(
    stakes: &[u64],
    store: &[u8],
    after: Option<TransactionLocator>,
) -> Result<Option<TransactionLocator>, Refusal>
    ensures { as_next_final result ≡ next_final_share stakes.now store.now (as_maybe after) }
{
    next_listed(stakes, store, FinalList::Ordinary, Reading::Old, after)
}

// The least final locator after a given one, stored or not. Asked on until none it gives the wide list.
pub fn next_wide(
    stakes: &[u64],
    store: &[u8],
    after: Option<TransactionLocator>,
) -> Result<Option<TransactionLocator>, Refusal>
    ensures { as_next_final result ≡ next_final stakes.now store.now (as_maybe after) }
{
    next_listed(stakes, store, FinalList::Wide, Reading::Old, after)
}

// The least final stored share after a given locator where owners may withdraw.
pub fn next_final_withdrawing(
    stakes: &[u64],
    store: &[u8],
    after: Option<TransactionLocator>,
) -> Result<Option<TransactionLocator>, Refusal>
    ensures { as_next_final result ≡ next_listed true withdrawing stakes.now store.now (as_maybe after) }
{
    next_listed(
        stakes,
        store,
        FinalList::Ordinary,
        Reading::Withdrawing,
        after,
    )
}

// The least final locator after a given one, stored or not, where owners may withdraw.
pub fn next_wide_withdrawing(
    stakes: &[u64],
    store: &[u8],
    after: Option<TransactionLocator>,
) -> Result<Option<TransactionLocator>, Refusal>
    ensures { as_next_final result ≡ next_listed false withdrawing stakes.now store.now (as_maybe after) }
{
    next_listed(stakes, store, FinalList::Wide, Reading::Withdrawing, after)
}
