// Payloads of stored shares, for numbers and byte slices. A call answers one word: below 2^63 it is the answer, and
// 2^63 + n is refusal n (`encoded` in host_calls, specs/Calls).
#![tactic(auto)]

ghost use Rattle.std.specs.Prelude.{◌≡◌};
ghost use Rattle.host_calls.specs.Calls.{encoded};
ghost use Rattle.host_payload_bytes.specs.Payload.{payload_length_call, payload_start_call};

// The length of a share's payload.
pub fn payload_length(stakes: &[u8], store: &[u8], locator: &[u8]) -> u64
    ensures { result ≡ encoded (payload_length_call stakes.now store.now locator.now) }
{
    let mut held = [0u64; committee::MAX_MEMBERS];
    let n = host_calls::stakes_of(stakes, &mut held);
    match host_payload_bytes::payload_length(&held[..n], store, locator) {
        Ok(length) => length,
        Err(refusal) => host_calls::refused(refusal),
    }
}

// Where in the store it begins.
pub fn payload_start(stakes: &[u8], store: &[u8], locator: &[u8]) -> u64
    ensures { result ≡ encoded (payload_start_call stakes.now store.now locator.now) }
{
    let mut held = [0u64; committee::MAX_MEMBERS];
    let n = host_calls::stakes_of(stakes, &mut held);
    match host_payload_bytes::payload_place(&held[..n], store, locator) {
        Ok((start, _)) => start as u64,
        Err(refusal) => host_calls::refused(refusal),
    }
}
