// Whether a stored share is loadable, in either reading of a reject: a share that needs nothing is asked by itself, the others with their chain of
// needed changes against the ordinary list.
#![tactic(auto)]

ghost use Rattle.std.specs.Prelude.{◌≡◌};
ghost use Rattle.types.specs.Values.{as_locator};
ghost use Rattle.final_spec.specs.Finality.{blocks_of};
ghost use Rattle.final_readings_spec.specs.Readings.{old, withdrawing, is_final_in};
ghost use Rattle.final_readings_spec.specs.Answers.{as_reading};
ghost use Rattle.list_walk.specs.Walk.{Ready};
ghost use Rattle.load_spec.specs.Loadable.{is_loadable_in};
ghost use Rattle.load_spec.specs.Question.{loadable_question_in};
ghost use Rattle.load_question.specs.Answers.{as_loadable};

use base::Refusal;
use committee::Stake;
use final_readings_spec::Reading;
use load_chain::Sight;
use types::TransactionLocator;

// Whether a locator is final.
fn is_final(
    stakes: &[u64],
    total: Stake,
    store: &[u8],
    order: &[u64],
    reading: Reading,
    locator: TransactionLocator,
) -> bool
    requires { Ready stakes.now total.0 store.now order.now }
    ensures { result ≡ is_final_in (as_reading reading) stakes.now (blocks_of store.now) (as_locator locator) }
{
    let mut positions = [0u64; types::MAX_BLOCKS];
    let found = final_certifying::certifying_blocks_in(
        stakes,
        total,
        store,
        order,
        locator,
        reading,
        &mut positions,
    );
    committee::is_quorum(total, committee_set::stake_of(stakes, found.authors))
}

// Whether a share is loadable, by its chain of needed changes: whether all of these are on the ordinary list.
fn by_chain(
    stakes: &[u64],
    total: Stake,
    store: &[u8],
    order: &[u64],
    reading: Reading,
    locator: TransactionLocator,
) -> bool
    requires { Ready stakes.now total.0 store.now order.now }
    ensures { result ≡ is_loadable_in (as_reading reading) stakes.now (blocks_of store.now) (as_locator locator) }
{
    let mut marks = [0u64; types::MAX_BLOCKS];
    if !load_chain::mark_chain(store, order, &mut marks, locator) {
        return false;
    }
    load_marks::clear_finals(stakes, total, store, order, reading, &mut marks);
    load_mark_words::none_left(&marks, order.len())
}

// Whether a share is loadable. One that needs nothing is so where it is final, which takes less than the list.
fn asked_ready(
    stakes: &[u64],
    total: Stake,
    store: &[u8],
    order: &[u64],
    reading: Reading,
    locator: TransactionLocator,
) -> bool
    requires { Ready stakes.now total.0 store.now order.now }
    ensures { result ≡ is_loadable_in (as_reading reading) stakes.now (blocks_of store.now) (as_locator locator) }
{
    let seen = load_chain::look(store, order, locator);
    match seen {
        Sight::No => false,
        Sight::Alone(_) => is_final(stakes, total, store, order, reading, locator),
        Sight::Needs(_, _) => by_chain(stakes, total, store, order, reading, locator),
    }
}

// Whether the locator names a loadable stored share in the reading that is asked for (5, 10).
pub fn is_loadable_in(
    stakes: &[u64],
    store: &[u8],
    reading: Reading,
    locator: TransactionLocator,
) -> Result<bool, Refusal>
    ensures { as_loadable result ≡ loadable_question_in (as_reading reading) stakes.now store.now (as_locator locator) }
{
    let Ok(total) = committee::new_committee(stakes) else {
        return Err(Refusal::BrokenCommittee);
    };
    if !store_order::in_order(stakes, store) {
        return Err(Refusal::StoreNotInOrder);
    }
    let mut order = [0u64; types::MAX_BLOCKS];
    let count = final_block_votes::sorted_positions(store, &mut order);
    let ready = asked_ready(stakes, total, store, &order[..count], reading, locator);
    Ok(ready)
}

// The same in the old reading.
pub fn is_loadable(
    stakes: &[u64],
    store: &[u8],
    locator: TransactionLocator,
) -> Result<bool, Refusal>
    ensures { as_loadable result ≡ loadable_question_in old stakes.now store.now (as_locator locator) }
{
    is_loadable_in(stakes, store, Reading::Old, locator)
}

// The same where owners may withdraw.
pub fn is_loadable_withdrawing(
    stakes: &[u64],
    store: &[u8],
    locator: TransactionLocator,
) -> Result<bool, Refusal>
    ensures { as_loadable result ≡ loadable_question_in withdrawing stakes.now store.now (as_locator locator) }
{
    is_loadable_in(stakes, store, Reading::Withdrawing, locator)
}
