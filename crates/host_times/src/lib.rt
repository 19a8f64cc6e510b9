// What the host's call about a stored block's time is made of, over byte slices.
#![tactic(auto)]

ghost use Rattle.std.specs.Prelude.{◌≡◌};
ghost use Rattle.host_calls.specs.Calls.{encoded};
ghost use Rattle.host_times.specs.Times.{reference_of, asked_time, creation_time_call};

use base::Refusal;

fn time_of(stakes: &[u64], store: &[u8], reference: &[u8], found: &mut [u8]) -> u64
    ensures { (result ≡ encoded (asked_time stakes.now store.now (reference_of reference.now) found.old).answer) × (found.new ≡ (asked_time stakes.now store.now (reference_of reference.now) found.old).found) }
{
    if reference.len() != types::REFERENCE_BYTES {
        let refusal = host_locators::refusal_before(Refusal::Malformed, stakes, store);
        return host_calls::refused(refusal);
    }
    if found.len() != 8 {
        let refusal = host_locators::refusal_before(Refusal::AnswerSlice, stakes, store);
        return host_calls::refused(refusal);
    }
    match store_time::creation_time(
        stakes,
        store,
        record_reference_bytes::read_reference(reference, 0),
    ) {
        Ok(Some(time)) => {
            base::write_u64(found, 0, time);
            1
        }
        Ok(None) => 0,
        Err(refusal) => host_calls::refused(refusal),
    }
}

// The time of a stored block: 1 where it was written, 0 where there is none.
pub fn creation_time(stakes: &[u8], store: &[u8], reference: &[u8], found: &mut [u8]) -> u64
    ensures value { result ≡ encoded (creation_time_call stakes.now store.now reference.now found.old).answer }
    ensures found_after { found.new ≡ (creation_time_call stakes.now store.now reference.now found.old).found }
{
    let mut held = [0u64; committee::MAX_MEMBERS];
    let n = host_calls::stakes_of(stakes, &mut held);
    time_of(&held[..n], store, reference, found)
}
