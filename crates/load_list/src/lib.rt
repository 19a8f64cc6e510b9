// The list of all loadable stored shares, in either reading of a reject.
#![tactic(auto)]

ghost use Rattle.std.specs.Prelude.{◌≡◌};
ghost use Rattle.final_readings_spec.specs.Readings.{old, withdrawing};
ghost use Rattle.final_readings_spec.specs.Answers.{as_reading};
ghost use Rattle.load_spec.specs.Question.{loadable_questions_in};
ghost use Rattle.load_list.specs.Answers.{as_loadable_list};

use base::Refusal;
use final_readings_spec::Reading;

// All loadable stored shares in ascending locator order, in the reading that is asked for, two words each: the position of the block's entry and
// the offset. The words past them stay. The answer is the number of places that were written (5, 10, 58).
pub fn loadable_in(
    stakes: &[u64],
    store: &[u8],
    reading: Reading,
    places: &mut [u64],
) -> Result<u64, Refusal>
    ensures result_value { as_loadable_list result ≡ (loadable_questions_in (as_reading reading) stakes.now store.now places.old).answer }
    ensures places_after { places.new ≡ (loadable_questions_in (as_reading reading) stakes.now store.now places.old).places }
{
    let Ok(total) = committee::new_committee(stakes) else {
        return Err(Refusal::BrokenCommittee);
    };
    if !store_order::in_order(stakes, store) {
        return Err(Refusal::StoreNotInOrder);
    }
    let mut order = [0u64; types::MAX_BLOCKS];
    let count = final_block_votes::sorted_positions(store, &mut order);
    if places.len() / 2 < load_share_count::count_shares(stakes, store, &order[..count]) {
        return Err(Refusal::PlacesTooShort);
    }
    let n = load_pass::list_all(stakes, total, store, &order[..count], reading, places);
    Ok(n as u64)
}

// The same in the old reading.
pub fn loadable(stakes: &[u64], store: &[u8], places: &mut [u64]) -> Result<u64, Refusal>
    ensures result_value { as_loadable_list result ≡ (loadable_questions_in old stakes.now store.now places.old).answer }
    ensures places_after { places.new ≡ (loadable_questions_in old stakes.now store.now places.old).places }
{
    loadable_in(stakes, store, Reading::Old, places)
}

// The same where owners may withdraw.
pub fn loadable_withdrawing(
    stakes: &[u64],
    store: &[u8],
    places: &mut [u64],
) -> Result<u64, Refusal>
    ensures result_value { as_loadable_list result ≡ (loadable_questions_in withdrawing stakes.now store.now places.old).answer }
    ensures places_after { places.new ≡ (loadable_questions_in withdrawing stakes.now store.now places.old).places }
{
    loadable_in(stakes, store, Reading::Withdrawing, places)
}
