// The aggregator of stake. Follows `StakeAggregator` of committee.rs.
#![tactic(auto)]

ghost use Rattle.std.specs.Prelude.{◌≡◌, Err, false, ◌+◌, ◌<◌};
ghost use Rattle.base.specs.Lists.{all_of};
ghost use Rattle.committee.specs.Committee.{broken, known};
ghost use Rattle.committee_set.specs.AuthoritySet.{members};
ghost use Rattle.committee_aggregator.specs.StakeAggregator.{no_votes, with_vote, aggregator_in_order, add};
ghost use Rattle.committee_vote_answer.specs.Answers.{as_add_answer};
ghost use Rattle.committee_aggregator.specs.Answers.{as_aggregator, as_added};
ghost use Rattle.committee_aggregator.specs.Claims.{Claims};

use base::Refusal;
use committee::{AuthorityIndex, Stake};
use committee_set::AuthoritySet;
use committee_vote_answer::Vote;

// The authorities that voted, with the stake that they hold together.
#[derive(Clone, Copy)]
pub struct StakeAggregator {
    pub votes: AuthoritySet,
    pub stake: Stake,
}

// What adding a vote answers, and the aggregator afterwards.
#[derive(Clone, Copy)]
pub struct Added {
    pub answer: Result<Vote, Refusal>,
    pub aggregator: StakeAggregator,
}

// Whether the committee knows every authority in the set.
fn all_known(stakes: &[u64], votes: AuthoritySet) -> bool
    ensures { result ≡ all_of (known stakes.now) (members votes) }
{
    for i in stakes.len()..committee::MAX_MEMBERS {
        if votes.contains(AuthorityIndex(i as u64)) {
            return false;
        }
    }
    true
}

impl StakeAggregator {
    // No votes yet.
    pub fn new() -> StakeAggregator
        ensures { as_aggregator result ≡ no_votes }
    {
        StakeAggregator {
            votes: AuthoritySet::new(),
            stake: Stake(0),
        }
    }

    // Whether the committee knows every voter, and the stake is the sum of theirs.
    pub fn in_order(self, stakes: &[u64]) -> bool
        requires { broken stakes.now ≡ false }
        ensures { result ≡ aggregator_in_order stakes.now (as_aggregator self) }
    {
        let votes = self.votes;
        if !all_known(stakes, votes) {
            return false;
        }
        let sum = committee_set::stake_of(stakes, votes);
        self.stake.0 == sum.0
    }

    // The vote of an authority whose stake is given: stake grows only for a new voter.
    pub fn with_vote(self, vote: AuthorityIndex, stake: Stake) -> StakeAggregator
        requires { (vote.0 < 128) × (self.stake.0 + stake.0 < 18446744073709551616) }
        ensures { as_aggregator result ≡ with_vote stake.0 (as_aggregator self) vote.0 }
    {
        let votes = self.votes;
        if votes.contains(vote) {
            return self;
        }
        StakeAggregator {
            votes: votes.insert(vote),
            stake: Stake(self.stake.0 + stake.0),
        }
    }

    // A refusal changes nothing.
    fn refused(self, refusal: Refusal) -> Added
        ensures { (result.answer ≡ Err refusal) × (result.aggregator ≡ self) }
    {
        Added {
            answer: Err(refusal),
            aggregator: self,
        }
    }

    // Adds a vote: 5, 6, 21 ascending, changing nothing; else one of the four.
    pub fn add(self, stakes: &[u64], vote: AuthorityIndex) -> Added
        ensures { as_added result ≡ add stakes.now (as_aggregator self) vote.0 }
    {
        let Ok(total) = committee::new_committee(stakes) else {
            return self.refused(Refusal::BrokenCommittee);
        };
        if !self.in_order(stakes) {
            return self.refused(Refusal::BrokenAggregator);
        }
        let Some(stake) = committee::get_stake(stakes, vote) else {
            return self.refused(Refusal::UnknownAuthor);
        };
        let votes = self.votes;
        let repeated = votes.contains(vote);
        let before = committee::is_quorum(total, self.stake);
        let next = self.with_vote(vote, stake);
        let now = committee::is_quorum(total, next.stake);
        Added {
            answer: Ok(committee_vote_answer::told(repeated, before, now)),
            aggregator: next,
        }
    }
}

// Puts the vote into the aggregator that is lent: 5, 6, 21 ascending, changing nothing; else one of the four.
pub fn add(
    aggregator: &mut StakeAggregator,
    stakes: &[u64],
    vote: AuthorityIndex,
) -> Result<Vote, Refusal>
    ensures { (as_add_answer result ≡ (add stakes.now (as_aggregator aggregator.old) vote.0).answer) × (as_aggregator aggregator.new ≡ (add stakes.now (as_aggregator aggregator.old) vote.0).aggregator) }
{
    let old = *aggregator;
    let added = old.add(stakes, vote);
    *aggregator = added.aggregator;
    added.answer
}

// `add` at small values.
pub fn claims()
    ensures { Claims }
{}
