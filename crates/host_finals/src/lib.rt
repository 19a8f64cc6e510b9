// What the host's calls about the ordinary and the wide list, in either reading of a reject, are made of, over byte slices.
#![tactic(auto)]

ghost use Rattle.std.specs.Prelude.{◌≡◌};
ghost use Rattle.final_spec.specs.Finality.{blocks_of};
ghost use Rattle.final_readings_spec.specs.Answers.{as_reading};
ghost use Rattle.list_readings_spec.specs.Answers.{is_ordinary};
ghost use Rattle.list_readings_spec.specs.Lists.{listing};
ghost use Rattle.host_calls.specs.Calls.{encoded};
ghost use Rattle.host_final_answers.specs.Answers.{after_of};
ghost use Rattle.host_finals.specs.NextFinal.{asked_next_final};
ghost use Rattle.host_finals.specs.Stretches.{asked_stretches};

use base::Refusal;
use final_readings_spec::Reading;
use list_readings_spec::FinalList;

// ---- the next locator of a list

pub fn next_final_of(
    stakes: &[u64],
    store: &[u8],
    list: FinalList,
    reading: Reading,
    after: &[u8],
    found: &mut [u8],
) -> u64
    ensures { (result ≡ encoded (asked_next_final stakes.now store.now (listing (is_ordinary list) (as_reading reading) stakes.now (blocks_of store.now)) (after_of after.now) found.old).answer) × (found.new ≡ (asked_next_final stakes.now store.now (listing (is_ordinary list) (as_reading reading) stakes.now (blocks_of store.now)) (after_of after.now) found.old).found) }
{
    let Ok(place) = host_final_answers::after_of(after) else {
        let refusal = host_locators::refusal_before(Refusal::Malformed, stakes, store);
        return host_calls::refused(refusal);
    };
    if !host_final_answers::holds_locator(found) {
        let refusal = host_locators::refusal_before(Refusal::AnswerSlice, stakes, store);
        return host_calls::refused(refusal);
    }
    let answer = list_next::next_listed(stakes, store, list, reading, place);
    host_final_answers::found_in(found, answer)
}

// ---- a list in bulk

pub fn stretches_of(
    stakes: &[u64],
    store: &[u8],
    list: FinalList,
    reading: Reading,
    after: &[u8],
    out: &mut [u8],
) -> u64
    ensures { (result ≡ encoded (asked_stretches stakes.now store.now (listing (is_ordinary list) (as_reading reading) stakes.now (blocks_of store.now)) (after_of after.now) out.old).answer) × (out.new ≡ (asked_stretches stakes.now store.now (listing (is_ordinary list) (as_reading reading) stakes.now (blocks_of store.now)) (after_of after.now) out.old).stretches) }
{
    let Ok(place) = host_final_answers::after_of(after) else {
        let refusal = host_locators::refusal_before(Refusal::Malformed, stakes, store);
        return host_calls::refused(refusal);
    };
    if !host_final_answers::holds_stretches(out) {
        let refusal = host_locators::refusal_before(Refusal::AnswerSlice, stakes, store);
        return host_calls::refused(refusal);
    }
    let answer = list_bulk::list_stretches(stakes, store, list, reading, out, place);
    host_final_answers::stretches_number(answer)
}
