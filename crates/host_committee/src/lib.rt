// A committee and its thresholds, for numbers and byte slices. A call answers one word: below 2^63 it is the answer, and
// 2^63 + n is refusal n (`encoded` in host_calls, specs/Calls).
#![tactic(auto)]

ghost use Rattle.std.specs.Prelude.{◌≡◌};
ghost use Rattle.committee.specs.Committee.{quorum_of, valid_of};
ghost use Rattle.host_calls.specs.Calls.{encoded, flag, new_committee_call};

use base::Refusal;
use committee::Stake;

// Sets a committee: its total stake.
pub fn new_committee(stakes: &[u8]) -> u64
    ensures { result ≡ encoded (new_committee_call stakes.now) }
{
    if stakes.len() % 8 != 0 {
        return host_calls::refused(Refusal::BrokenCommittee);
    }
    if committee::MAX_MEMBERS < stakes.len() / 8 {
        if host_calls::has_zero_word(stakes) {
            return host_calls::refused(Refusal::ZeroStake);
        }
        return host_calls::refused(Refusal::TooManyMembers);
    }
    let mut held = [0u64; committee::MAX_MEMBERS];
    let n = host_calls::stakes_of(stakes, &mut held);
    match committee::new_committee(&held[..n]) {
        Ok(total) => total.0,
        Err(refusal) => host_calls::refused(refusal),
    }
}

// Whether an amount of stake is quorum of a total: 1 or 0.
pub fn is_quorum(total: u64, amount: u64) -> u64
    ensures { result ≡ flag (quorum_of total amount) }
{
    host_calls::flag(committee::is_quorum(Stake(total), Stake(amount)))
}

// Whether it is valid: 1 or 0.
pub fn is_valid(total: u64, amount: u64) -> u64
    ensures { result ≡ flag (valid_of total amount) }
{
    host_calls::flag(committee::is_valid(Stake(total), Stake(amount)))
}
