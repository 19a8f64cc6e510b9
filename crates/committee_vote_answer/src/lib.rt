// What a vote is told: whether it is new, and whether quorum holds with it. Follows `StakeAggregator::add` of committee.rs.
#![tactic(auto)]

ghost use Rattle.std.specs.Prelude.{◌≡◌, Ok};
ghost use Rattle.base.specs.Checks.{answered};
ghost use Rattle.committee_vote_answer.specs.VoteAnswer.{told_of};
ghost use Rattle.committee_vote_answer.specs.Answers.{as_add_answer};

// Whether the voter had voted or is new, and whether quorum holds now; of a new vote with quorum, whether it crossed it.
#[derive(Clone, Copy)]
pub enum Vote {
    RepeatedBelow,
    RepeatedWith,
    NewBelow,
    NewWith(bool),
}

// What a vote is told, by whether its author had voted, whether quorum held before and whether it holds now.
pub fn told(repeated: bool, before: bool, now: bool) -> Vote
    ensures { as_add_answer (Ok result) ≡ answered (told_of repeated before now) }
{
    if repeated {
        if now {
            return Vote::RepeatedWith;
        }
        return Vote::RepeatedBelow;
    }
    if now {
        return Vote::NewWith(!before);
    }
    Vote::NewBelow
}
