// The questions about loadable shares, for a host: stakes and locator as bytes, places as words.
#![tactic(auto)]

ghost use Rattle.std.specs.Prelude.{◌≡◌};
ghost use Rattle.final_readings_spec.specs.Readings.{old, withdrawing};
ghost use Rattle.final_readings_spec.specs.Answers.{as_reading};
ghost use Rattle.load_spec.specs.Question.{loadable_question_in};
ghost use Rattle.load_question.specs.Answers.{as_loadable};
ghost use Rattle.host_calls.specs.Calls.{encoded};
ghost use Rattle.host_locators.specs.Locators.{locator_of, asked};
ghost use Rattle.host_loadable.specs.Loading.{is_loadable_call, loadable_call};

use base::Refusal;
use final_readings_spec::Reading;

// 20 for bytes that are no locator, after 5 and 10.
fn is_loadable_of(
    stakes: &[u64],
    store: &[u8],
    reading: Reading,
    locator: &[u8],
) -> Result<bool, Refusal>
    ensures { as_loadable result ≡ asked stakes.now store.now (loadable_question_in (as_reading reading) stakes.now store.now) (locator_of locator.now) }
{
    if locator.len() != types::LOCATOR_BYTES {
        return Err(host_locators::refusal_before(Refusal::Malformed, stakes, store));
    }
    let share = record_reference_bytes::read_locator(locator, 0);
    load_question::is_loadable_in(stakes, store, reading, share)
}

// Whether a locator names a loadable stored share in the reading that is asked for: 1 or 0.
fn is_loadable_in(stakes: &[u8], store: &[u8], reading: Reading, locator: &[u8]) -> u64
    ensures { result ≡ encoded (is_loadable_call (as_reading reading) stakes.now store.now locator.now) }
{
    let mut held = [0u64; committee::MAX_MEMBERS];
    let n = host_calls::stakes_of(stakes, &mut held);
    match is_loadable_of(&held[..n], store, reading, locator) {
        Ok(true) => 1,
        Ok(false) => 0,
        Err(refusal) => host_calls::refused(refusal),
    }
}

// The same in the old reading.
pub fn is_loadable(stakes: &[u8], store: &[u8], locator: &[u8]) -> u64
    ensures { result ≡ encoded (is_loadable_call old stakes.now store.now locator.now) }
{
    is_loadable_in(stakes, store, Reading::Old, locator)
}

// The same where owners may withdraw.
pub fn is_loadable_withdrawing(stakes: &[u8], store: &[u8], locator: &[u8]) -> u64
    ensures { result ≡ encoded (is_loadable_call withdrawing stakes.now store.now locator.now) }
{
    is_loadable_in(stakes, store, Reading::Withdrawing, locator)
}

// The number of loadable stored shares in the reading that is asked for, which stand at the front of the places, two words each.
fn loadable_in(stakes: &[u8], store: &[u8], reading: Reading, places: &mut [u64]) -> u64
    ensures value { result ≡ encoded (loadable_call (as_reading reading) stakes.now store.now places.old).answer }
    ensures places_after { places.new ≡ (loadable_call (as_reading reading) stakes.now store.now places.old).places }
{
    let mut held = [0u64; committee::MAX_MEMBERS];
    let n = host_calls::stakes_of(stakes, &mut held);
    match load_list::loadable_in(&held[..n], store, reading, places) {
        Ok(count) => count,
        Err(refusal) => host_calls::refused(refusal),
    }
}

// The same in the old reading.
pub fn loadable(stakes: &[u8], store: &[u8], places: &mut [u64]) -> u64
    ensures value { result ≡ encoded (loadable_call old stakes.now store.now places.old).answer }
    ensures places_after { places.new ≡ (loadable_call old stakes.now store.now places.old).places }
{
    loadable_in(stakes, store, Reading::Old, places)
}

// The same where owners may withdraw.
pub fn loadable_withdrawing(stakes: &[u8], store: &[u8], places: &mut [u64]) -> u64
    ensures value { result ≡ encoded (loadable_call withdrawing stakes.now store.now places.old).answer }
    ensures places_after { places.new ≡ (loadable_call withdrawing stakes.now store.now places.old).places }
{
    loadable_in(stakes, store, Reading::Withdrawing, places)
}
