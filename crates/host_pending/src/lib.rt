// The pending question, for numbers and byte slices. A call answers one word: below 2^63 it is the answer, and
// 2^63 + n is refusal n (`encoded` in host_calls, specs/Calls).
#![tactic(auto)]

ghost use Rattle.std.specs.Prelude.{◌≡◌};
ghost use Rattle.host_calls.specs.Calls.{encoded};
ghost use Rattle.host_pending_bytes.specs.Pending.{pending_stake_call, pending_voters_call};

// The stake of a pending locator.
pub fn pending_stake(stakes: &[u8], store: &[u8], table: &[u8], locator: &[u8]) -> u64
    ensures { result ≡ encoded (pending_stake_call stakes.now store.now table.now locator.now) }
{
    let mut held = [0u64; committee::MAX_MEMBERS];
    let n = host_calls::stakes_of(stakes, &mut held);
    match host_pending_bytes::pending_of(&held[..n], store, table, locator) {
        Ok((stake, _)) => stake.0,
        Err(refusal) => host_calls::refused(refusal),
    }
}

// The number of its voters.
pub fn pending_voters(stakes: &[u8], store: &[u8], table: &[u8], locator: &[u8]) -> u64
    ensures { result ≡ encoded (pending_voters_call stakes.now store.now table.now locator.now) }
{
    let mut held = [0u64; committee::MAX_MEMBERS];
    let n = host_calls::stakes_of(stakes, &mut held);
    match host_pending_bytes::pending_of(&held[..n], store, table, locator) {
        Ok((_, voters)) => voters,
        Err(refusal) => host_calls::refused(refusal),
    }
}
