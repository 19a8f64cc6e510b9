// The edge cards of document 01 that are run, a line each: what the engine answers.
#![tactic(auto)]

use committee::{AuthorityIndex, Stake};
use committee_aggregator::StakeAggregator;
use committee_set::AuthoritySet;
use committee_vote_answer::Vote;
use std::io;

fn print(rt: &impl Print, text: &[u8]) -> io::Result<()> {
    rt.write_all(text)
}

fn print_number(rt: &impl Print, n: u64) -> io::Result<()> {
    rt.print(n)
}

// A line of a card on setting a committee.
fn set(rt: &impl Print, card: &[u8], stakes: &[u64]) -> io::Result<()> {
    print(rt, card)?;
    match committee::new_committee(stakes) {
        Ok(total) => {
            print(rt, b": taken, total ")?;
            print_number(rt, total.0)?;
        }
        Err(refusal) => {
            print(rt, b": refused ")?;
            print_number(rt, refusal.number())?;
        }
    }
    print(rt, b"\n")
}

// A line of a card on adding a vote, with the stake and the number of voters afterwards.
fn add(
    rt: &impl Print,
    card: &[u8],
    stakes: &[u64],
    aggregator: StakeAggregator,
    vote: u64,
) -> io::Result<()> {
    print(rt, card)?;
    let added = aggregator.add(stakes, AuthorityIndex(vote));
    let answer = added.answer;
    match answer {
        Ok(Vote::RepeatedBelow) => print(rt, b": repeated below quorum")?,
        Ok(Vote::RepeatedWith) => print(rt, b": repeated with quorum")?,
        Ok(Vote::NewBelow) => print(rt, b": new below quorum")?,
        Ok(Vote::NewWith(crossed)) => {
            print(rt, b": new with quorum")?;
            if crossed {
                print(rt, b", crossed by it")?;
            }
        }
        Err(refusal) => {
            print(rt, b": refused ")?;
            print_number(rt, refusal.number())?;
        }
    }
    print(rt, b", stake ")?;
    print_number(rt, added.aggregator.stake.0)?;
    print(rt, b", voters ")?;
    print_number(rt, added.aggregator.votes.count())?;
    print(rt, b"\n")
}

// A line of a card on quorum and valid stake.
fn judge(rt: &impl Print, card: &[u8], total: u64, amount: u64) -> io::Result<()> {
    print(rt, card)?;
    if committee::is_quorum(Stake(total), Stake(amount)) {
        print(rt, b": quorum")?;
    } else {
        print(rt, b": no quorum")?;
    }
    if committee::is_valid(Stake(total), Stake(amount)) {
        print(rt, b", valid\n")?;
    } else {
        print(rt, b", not valid\n")?;
    }
    Ok(())
}

fn committees(rt: &impl Print) -> io::Result<()> {
    let none = [0u64; 0];
    set(rt, b"no members", &none)?;
    let ones128 = [1u64; 128];
    set(rt, b"128 members", &ones128)?;
    let ones129 = [1u64; 129];
    set(rt, b"129 members", &ones129)?;
    let mut zero129 = [1u64; 129];
    zero129[128] = 0;
    set(rt, b"129 members, one of them with no stake", &zero129)?;
    let wrapping = [9223372036854775808, 9223372036854775808, 1];
    set(rt, b"stakes that sum to 1 past 2^64", &wrapping)?;
    let course = committee::course_committee();
    set(rt, b"the course committee", &course)
}

fn amounts(rt: &impl Print) -> io::Result<()> {
    judge(rt, b"11 of 17", 17, 11)?;
    judge(rt, b"12 of 17", 17, 12)?;
    judge(
        rt,
        b"all of 2^63 - 1",
        9223372036854775807,
        9223372036854775807,
    )?;
    judge(
        rt,
        b"two thirds of 2^63 - 1, rounded down",
        9223372036854775807,
        6148914691236517204,
    )?;
    judge(
        rt,
        b"one more than that",
        9223372036854775807,
        6148914691236517205,
    )?;
    judge(
        rt,
        b"more than there is",
        9223372036854775807,
        18446744073709551615,
    )?;
    Ok(())
}

fn votes(rt: &impl Print) -> io::Result<()> {
    let course = committee::course_committee();
    let none = StakeAggregator::new();
    add(rt, b"a first vote", &course, none, 0)?;
    let two = StakeAggregator {
        votes: AuthoritySet { low: 3, high: 0 },
        stake: Stake(8),
    };
    add(rt, b"a new vote", &course, two, 2)?;
    add(rt, b"a repeated vote", &course, two, 1)
}

fn votes_with_quorum(rt: &impl Print) -> io::Result<()> {
    let course = committee::course_committee();
    let four = StakeAggregator {
        votes: AuthoritySet { low: 39, high: 0 },
        stake: Stake(12),
    };
    add(rt, b"a new vote once quorum holds", &course, four, 6)?;
    add(rt, b"a repeated vote once quorum holds", &course, four, 5)?;
    let ones128 = [1u64; 128];
    let eighty_five = StakeAggregator {
        votes: AuthoritySet {
            low: 18446744073709551615,
            high: 2097151,
        },
        stake: Stake(85),
    };
    add(rt, b"the 86th vote of 128", &ones128, eighty_five, 127)
}

fn refused_votes(rt: &impl Print) -> io::Result<()> {
    let course = committee::course_committee();
    let two = StakeAggregator {
        votes: AuthoritySet { low: 3, high: 0 },
        stake: Stake(8),
    };
    add(rt, b"an unknown voter", &course, two, 7)?;
    let wrong = StakeAggregator {
        votes: AuthoritySet { low: 3, high: 0 },
        stake: Stake(7),
    };
    add(
        rt,
        b"a stake that is not the voters' sum",
        &course,
        wrong,
        7,
    )?;
    let stranger = StakeAggregator {
        votes: AuthoritySet { low: 0, high: 1 },
        stake: Stake(0),
    };
    add(rt, b"a voter that is not known", &course, stranger, 0)?;
    let broken = [5u64, 0];
    add(rt, b"a committee that is broken", &broken, wrong, 7)
}

fn main(rt: HostRuntime) -> io::Result<()> {
    committees(&rt)?;
    amounts(&rt)?;
    votes(&rt)?;
    votes_with_quorum(&rt)?;
    refused_votes(&rt)
}
