// What the host's calls about slips are made of, over byte slices.
#![tactic(auto)]

ghost use Rattle.std.specs.Prelude.{◌≡◌};
ghost use Rattle.host_calls.specs.Calls.{encoded, committee_of};
ghost use Rattle.slip_spec.specs.Reading.{read_answer};

// The number of certifying blocks of a slip that is accepted with its records.
pub fn read_slip(stakes: &[u8], slip: &[u8], records: &[u8]) -> u64
    ensures { result ≡ encoded (read_answer (committee_of stakes.now) slip.now records.now) }
{
    let mut held = [0u64; committee::MAX_MEMBERS];
    let n = host_calls::stakes_of(stakes, &mut held);
    match slip_read_call::read_slip(&held[..n], slip, records) {
        Ok(count) => count,
        Err(refusal) => host_calls::refused(refusal),
    }
}
