// Plain calls of the forms over a reference, for callers that hold values.
#![tactic(auto)]

ghost use Rattle.std.specs.Prelude.{◌≡◌};
ghost use Rattle.committee_aggregator.specs.StakeAggregator.{add};
ghost use Rattle.committee_aggregator.specs.Answers.{as_aggregator, as_added};

use base::Refusal;
use committee::AuthorityIndex;
use committee_aggregator::{Added, StakeAggregator};
use committee_vote_answer::Vote;

fn added(answer: Result<Vote, Refusal>, aggregator: StakeAggregator) -> Added
    ensures { (result.answer ≡ answer) × (result.aggregator ≡ aggregator) }
{
    Added { answer, aggregator }
}

// Adds a vote by lending the aggregator to `committee_aggregator::add`.
pub fn add_lent(stakes: &[u64], aggregator: StakeAggregator, vote: AuthorityIndex) -> Added
    ensures { as_added result ≡ add stakes.now (as_aggregator aggregator) vote.0 }
{
    let mut lent = aggregator;
    let answer = committee_aggregator::add(&mut lent, stakes, vote);
    added(answer, lent)
}
