// The finality question of a host, over byte slices, in either reading.
#![tactic(auto)]

ghost use Rattle.std.specs.Prelude.{◌≡◌, length};
ghost use Rattle.final_question.specs.Answers.{as_finality};
ghost use Rattle.final_readings_spec.specs.Answers.{as_reading};
ghost use Rattle.host_calls.specs.Calls.{encoded};
ghost use Rattle.host_locators.specs.Locators.{locator_of};
ghost use Rattle.host_finality.specs.Finality.{finality_number, asked_finality, finality_call, numbers_fit};
ghost use Rattle.host_finality.specs.Claims.{Claims};

use base::Refusal;
use final_question::FinalOrNot;
use final_readings_spec::Reading;

// The question itself, with the positions as words.
fn finality_words(
    stakes: &[u64],
    store: &[u8],
    positions: &mut [u8],
    locator: &[u8],
    reading: Reading,
) -> Result<FinalOrNot, Refusal>
    requires { (length locator.now ≡ 56) × (length positions.old ≡ 8192) }
    ensures asked { (finality_number (as_finality result) ≡ (asked_finality (as_reading reading) stakes.now store.now positions.old (locator_of locator.now)).answer) × (positions.new ≡ (asked_finality (as_reading reading) stakes.now store.now positions.old (locator_of locator.now)).positions) }
    ensures bounded { numbers_fit result }
{
    let mut words = [0u64; types::MAX_BLOCKS];
    words::words_of(positions, &mut words);
    let place = record_reference_bytes::read_locator(locator, 0);
    let answer = final_question::finality_in(stakes, store, &mut words, place, reading);
    words::bytes_of(&words, positions);
    answer
}

fn finality_of(
    stakes: &[u64],
    store: &[u8],
    positions: &mut [u8],
    locator: &[u8],
    reading: Reading,
) -> Result<FinalOrNot, Refusal>
    ensures asked { (finality_number (as_finality result) ≡ (asked_finality (as_reading reading) stakes.now store.now positions.old (locator_of locator.now)).answer) × (positions.new ≡ (asked_finality (as_reading reading) stakes.now store.now positions.old (locator_of locator.now)).positions) }
    ensures bounded { numbers_fit result }
{
    if locator.len() != types::LOCATOR_BYTES {
        return Err(host_locators::refusal_before(Refusal::Malformed, stakes, store));
    }
    if positions.len() != host_calls::POSITION_BYTES {
        return Err(host_locators::refusal_before(Refusal::AnswerSlice, stakes, store));
    }
    finality_words(stakes, store, positions, locator, reading)
}

// The call: 2 · number of certifying blocks, and 1 more where the locator is final.
pub fn finality_call(
    stakes: &[u8],
    store: &[u8],
    positions: &mut [u8],
    locator: &[u8],
    reading: Reading,
) -> u64
    ensures value { result ≡ encoded (finality_call (as_reading reading) stakes.now store.now positions.old locator.now).answer }
    ensures positions_after { positions.new ≡ (finality_call (as_reading reading) stakes.now store.now positions.old locator.now).positions }
{
    let mut held = [0u64; committee::MAX_MEMBERS];
    let n = host_calls::stakes_of(stakes, &mut held);
    match finality_of(&held[..n], store, positions, locator, reading) {
        Ok(FinalOrNot::Final(count)) => 2 * count + 1,
        Ok(FinalOrNot::NotFinal(count)) => 2 * count,
        Err(refusal) => host_calls::refused(refusal),
    }
}

// A refused question keeps every byte of its positions.
pub fn claims()
    ensures { Claims }
{}
