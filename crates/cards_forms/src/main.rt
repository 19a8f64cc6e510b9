// The forms over a reference beside the calls by value, a line for each card: the two answers are the same.
#![tactic(auto)]

use base::Refusal;
use committee::{AuthorityIndex, RoundNumber, Stake};
use committee_aggregator::{Added, StakeAggregator};
use committee_set::AuthoritySet;
use committee_vote_answer::Vote;
use final_question::FinalOrNot;
use std::io;
use types::{BlockDigest, BlockReference, TransactionLocator};

fn print(rt: &impl Print, text: &[u8]) -> io::Result<()> {
    rt.write_all(text)
}

fn print_number(rt: &impl Print, n: u64) -> io::Result<()> {
    rt.print(n)
}

fn print_refused(rt: &impl Print, refusal: Refusal) -> io::Result<()> {
    print(rt, b"refused ")?;
    print_number(rt, refusal.number())
}

// ---- adding a vote

fn print_added(rt: &impl Print, added: Added) -> io::Result<()> {
    let answer = added.answer;
    match answer {
        Ok(Vote::RepeatedBelow) => print(rt, b"repeated below quorum")?,
        Ok(Vote::RepeatedWith) => print(rt, b"repeated with quorum")?,
        Ok(Vote::NewBelow) => print(rt, b"new below quorum")?,
        Ok(Vote::NewWith(crossed)) => {
            print(rt, b"new with quorum")?;
            if crossed {
                print(rt, b", crossed by it,")?;
            }
        }
        Err(refusal) => print_refused(rt, refusal)?,
    }
    print(rt, b" with ")?;
    print_number(rt, added.aggregator.votes.low)?;
    print(rt, b" ")?;
    print_number(rt, added.aggregator.votes.high)?;
    print(rt, b" ")?;
    print_number(rt, added.aggregator.stake.0)
}

fn vote(
    rt: &impl Print,
    card: &[u8],
    stakes: &[u64],
    aggregator: StakeAggregator,
    voter: u64,
) -> io::Result<()> {
    print(rt, card)?;
    print(rt, b": by value ")?;
    print_added(rt, aggregator.add(stakes, AuthorityIndex(voter)))?;
    print(rt, b"; lent ")?;
    print_added(
        rt,
        committee_lent_add::add_lent(stakes, aggregator, AuthorityIndex(voter)),
    )?;
    print(rt, b"\n")
}

fn aggregator(low: u64, stake: u64) -> StakeAggregator {
    let votes = AuthoritySet { low, high: 0 };
    StakeAggregator {
        votes,
        stake: Stake(stake),
    }
}

fn votes(rt: &impl Print) -> io::Result<()> {
    let course = committee::course_committee();
    vote(rt, b"a first vote", &course, aggregator(0, 0), 0)?;
    vote(
        rt,
        b"a vote that makes quorum",
        &course,
        aggregator(7, 11),
        6,
    )?;
    vote(rt, b"a repeated vote", &course, aggregator(7, 11), 1)
}

fn votes_with_quorum(rt: &impl Print) -> io::Result<()> {
    let course = committee::course_committee();
    vote(
        rt,
        b"a vote once quorum holds",
        &course,
        aggregator(39, 12),
        6,
    )?;
    vote(rt, b"a repeated vote then", &course, aggregator(39, 12), 5)
}

fn refused_votes(rt: &impl Print) -> io::Result<()> {
    let course = committee::course_committee();
    let none = [0u64; 0];
    vote(rt, b"no committee", &none, aggregator(7, 11), 1)?;
    vote(rt, b"a stake that is no sum", &course, aggregator(7, 12), 1)?;
    vote(rt, b"an unknown voter", &course, aggregator(7, 11), 7)
}

// ---- questions

fn print_finality(
    rt: &impl Print,
    answer: Result<FinalOrNot, Refusal>,
    positions: &[u64; 4],
) -> io::Result<()> {
    match answer {
        Ok(FinalOrNot::Final(count)) => {
            print(rt, b"final, blocks ")?;
            print_number(rt, count)?;
        }
        Ok(FinalOrNot::NotFinal(count)) => {
            print(rt, b"not final, blocks ")?;
            print_number(rt, count)?;
        }
        Err(refusal) => print_refused(rt, refusal)?,
    }
    print(rt, b", first position ")?;
    print_number(rt, positions[0])
}

fn print_next(
    rt: &impl Print,
    answer: Result<Option<TransactionLocator>, Refusal>,
) -> io::Result<()> {
    match answer {
        Ok(Some(locator)) => {
            print(rt, b"offset ")?;
            print_number(rt, locator.offset)?;
        }
        Ok(None) => print(rt, b"none")?,
        Err(refusal) => print_refused(rt, refusal)?,
    }
    Ok(())
}

// An offset of the block of round 1.
fn share(offset: u64) -> TransactionLocator {
    let block = BlockReference {
        authority: AuthorityIndex(0),
        round: RoundNumber(1),
        digest: BlockDigest(8589934592, 0, 0, 0),
    };
    TransactionLocator { block, offset }
}

fn finality(
    rt: &impl Print,
    card: &[u8],
    stakes: &[u64],
    store: &[u8],
    offset: u64,
) -> io::Result<()> {
    let locator = share(offset);
    let mut positions = [9u64; 4];
    let mut held = [9u64; 4];
    print(rt, card)?;
    print(rt, b": by value ")?;
    let answer = final_question::finality(stakes, store, &mut positions, locator);
    print_finality(rt, answer, &positions)?;
    print(rt, b"; held ")?;
    let again = final_interpreter::finality_held(stakes, store, &mut held, locator);
    print_finality(rt, again, &held)?;
    print(rt, b"\n")
}

fn next_final(
    rt: &impl Print,
    card: &[u8],
    stakes: &[u64],
    store: &[u8],
    after: Option<TransactionLocator>,
) -> io::Result<()> {
    print(rt, card)?;
    print(rt, b": by value ")?;
    print_next(rt, list_next::next_final(stakes, store, after))?;
    print(rt, b"; held ")?;
    print_next(rt, final_interpreter::next_final_held(stakes, store, after))?;
    print(rt, b"\n")
}

fn print_fed(rt: &impl Print, answer: Result<u64, Refusal>) -> io::Result<()> {
    match answer {
        Ok(count) => {
            print(rt, b"fed, events ")?;
            print_number(rt, count)?;
        }
        Err(refusal) => print_refused(rt, refusal)?,
    }
    print(rt, b"\n")
}

fn ask(rt: &impl Print, stakes: &[u64], store: &[u8], broken: &[u8]) -> io::Result<()> {
    finality(rt, b"the first share", stakes, store, 0)?;
    finality(rt, b"no share", stakes, store, 2)?;
    finality(rt, b"no store", stakes, broken, 0)?;
    next_final(rt, b"from the start", stakes, store, None)?;
    next_final(rt, b"after the first share", stakes, store, Some(share(0)))?;
    next_final(rt, b"after the last", stakes, store, Some(share(1)))?;
    next_final(rt, b"no store", stakes, broken, None)
}

// A sole owner's block of round 0, and one of round 1 that includes it and has two shares.
fn questions(rt: &impl Print) -> io::Result<()> {
    let one = [1u64; 1];
    let mut store = [0u8; 512];
    store[4] = 16;
    let mut table = [0u64; 7];
    let mut work = [0u64; 7];
    let mut events = [0u64; 3];
    let mut first = [0u8; 56];
    first[19] = 1;
    let mut second = [0u8; 110];
    second[8] = 1;
    second[19] = 2;
    second[49] = 1;
    second[51] = 2;
    second[75] = 1;
    print_fed(
        rt,
        feed_single::feed(&one, &mut store, &mut table, &mut work, &mut events, &first),
    )?;
    print_fed(
        rt,
        feed_single::feed(
            &one,
            &mut store,
            &mut table,
            &mut work,
            &mut events,
            &second,
        ),
    )?;
    ask(rt, &one, &store, &first)
}

fn main(rt: HostRuntime) -> io::Result<()> {
    votes(&rt)?;
    votes_with_quorum(&rt)?;
    refused_votes(&rt)?;
    questions(&rt)
}
