// The writer of slips, for a host: stakes and locator as bytes.
#![tactic(auto)]

ghost use Rattle.std.specs.Prelude.{◌≡◌};
ghost use Rattle.final_readings_spec.specs.Answers.{as_reading};
ghost use Rattle.slip_write_bytes.specs.Answers.{as_slip_answer};
ghost use Rattle.host_calls.specs.Calls.{encoded};
ghost use Rattle.host_locators.specs.Locators.{locator_of};
ghost use Rattle.host_slip_writer.specs.WriteSlip.{asked_slip, write_slip_call};

use base::Refusal;
use final_readings_spec::Reading;

// 20 for bytes that are no locator, after 5 and 10.
fn write_slip_of(
    stakes: &[u64],
    store: &[u8],
    locator: &[u8],
    reading: Reading,
    out: &mut [u8],
) -> Result<usize, Refusal>
    ensures result_value { as_slip_answer result ≡ (asked_slip (as_reading reading) stakes.now store.now (locator_of locator.now) out.old).answer }
    ensures out_after { out.new ≡ (asked_slip (as_reading reading) stakes.now store.now (locator_of locator.now) out.old).out }
{
    if locator.len() != types::LOCATOR_BYTES {
        return Err(host_locators::refusal_before(Refusal::Malformed, stakes, store));
    }
    slip_write_call::write_slip_in(
        stakes,
        store,
        record_reference_bytes::read_locator(locator, 0),
        reading,
        out,
    )
}

// The length of the slip in the reading that is asked for, which stands in front of `out`.
pub fn write_slip(
    stakes: &[u8],
    store: &[u8],
    locator: &[u8],
    reading: Reading,
    out: &mut [u8],
) -> u64
    ensures value { result ≡ encoded (write_slip_call (as_reading reading) stakes.now store.now locator.now out.old).answer }
    ensures out_after { out.new ≡ (write_slip_call (as_reading reading) stakes.now store.now locator.now out.old).out }
{
    let mut held = [0u64; committee::MAX_MEMBERS];
    let n = host_calls::stakes_of(stakes, &mut held);
    match write_slip_of(&held[..n], store, locator, reading, out) {
        Ok(length) => length as u64,
        Err(refusal) => host_calls::refused(refusal),
    }
}
