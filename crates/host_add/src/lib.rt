// Adding a vote to an aggregator that a host holds as bytes.
#![tactic(auto)]

ghost use Rattle.std.specs.Prelude.{◌≡◌, true, [], ◌∷◌, length};
ghost use Rattle.base.specs.Checks.{◌⇒◌, refusal};
ghost use Rattle.base.specs.Refusals.{refusal_number};
ghost use Rattle.committee.specs.Committee.{broken};
ghost use Rattle.committee_vote_answer.specs.Answers.{as_add_answer};
ghost use Rattle.committee_aggregator.specs.Answers.{as_aggregator};
ghost use Rattle.host_calls.specs.Calls.{encoded};
ghost use Rattle.host_add.specs.Claims.{Claims};
ghost use Rattle.host_add.specs.Add.{aggregator_of, aggregator_bytes, numbered, add_of, add_call};

use base::Refusal;
use committee::{AuthorityIndex, Stake};
use committee_aggregator::StakeAggregator;
use committee_set::AuthoritySet;
use committee_vote_answer::Vote;

fn read_aggregator(bytes: &[u8]) -> StakeAggregator
    requires { length bytes.now ≡ 24 }
    ensures { as_aggregator result ≡ aggregator_of bytes.now }
{
    let low = base::read_u64(bytes, 0);
    let high = base::read_u64(bytes, 8);
    let stake = Stake(base::read_u64(bytes, 16));
    let votes = AuthoritySet { low, high };
    StakeAggregator { votes, stake }
}

pub fn write_aggregator(bytes: &mut [u8], aggregator: StakeAggregator)
    requires { length bytes.old ≡ 24 }
    ensures { bytes.new ≡ aggregator_bytes (as_aggregator aggregator) }
{
    base::write_u64(bytes, 0, aggregator.votes.low);
    base::write_u64(bytes, 8, aggregator.votes.high);
    base::write_u64(bytes, 16, aggregator.stake.0);
}

// 5, or 6 for bytes that are no aggregator.
fn no_aggregator(stakes: &[u64]) -> Refusal
    ensures { refusal_number result ≡ refusal ((broken stakes.now ⇒ 5) ∷ (true ⇒ 6) ∷ []) }
{
    let Ok(_) = committee::new_committee(stakes) else {
        return Refusal::BrokenCommittee;
    };
    Refusal::BrokenAggregator
}

fn add_of(stakes: &[u64], aggregator: &mut [u8], voter: u64) -> Result<Vote, Refusal>
    ensures { (numbered (as_add_answer result) ≡ (add_of stakes.now aggregator.old voter).answer) × (aggregator.new ≡ (add_of stakes.now aggregator.old voter).aggregator) }
{
    if aggregator.len() != 24 {
        return Err(no_aggregator(stakes));
    }
    let held = read_aggregator(aggregator);
    let added = held.add(stakes, AuthorityIndex(voter));
    let next = added.aggregator;
    write_aggregator(aggregator, next);
    added.answer
}

// Puts a vote into an aggregator of three words. 0: the voter had voted, and quorum does not hold; 1: and it holds; 2: a new
// vote, and quorum does not hold; 3: and it held before; 4: and this vote crossed it.
pub fn add(stakes: &[u8], aggregator: &mut [u8], voter: u64) -> u64
    ensures value { result ≡ encoded (add_call stakes.now aggregator.old voter).answer }
    ensures aggregator_after { aggregator.new ≡ (add_call stakes.now aggregator.old voter).aggregator }
{
    let mut held = [0u64; committee::MAX_MEMBERS];
    let n = host_calls::stakes_of(stakes, &mut held);
    match add_of(&held[..n], aggregator, voter) {
        Ok(Vote::RepeatedBelow) => 0,
        Ok(Vote::RepeatedWith) => 1,
        Ok(Vote::NewBelow) => 2,
        Ok(Vote::NewWith(crossed)) => { if crossed { 4 } else { 3 } }
        Err(refusal) => host_calls::refused(refusal),
    }
}

// A refused vote keeps every byte.
pub fn claims()
    ensures { Claims }
{}
