// Whom to ring, for a host: stakes, table and locator as bytes, the answer's set and stake as three words.
#![tactic(auto)]

ghost use Rattle.std.specs.Prelude.{◌≡◌, true, [], ◌∷◌, length};
ghost use Rattle.base.specs.Checks.{◌⇒◌, refusal};
ghost use Rattle.base.specs.Refusals.{refusal_number};
ghost use Rattle.committee.specs.Committee.{broken};
ghost use Rattle.ring_fewest.specs.Answers.{as_ring};
ghost use Rattle.host_calls.specs.Calls.{encoded};
ghost use Rattle.host_locators.specs.Locators.{locator_of};
ghost use Rattle.host_ring.specs.Ring.{ring_in, asked_ring, ring_told, whom_to_ring_call, fewest_in, fewest_owners_call};
ghost use Rattle.host_ring.specs.Step.{Tellable};

use base::Refusal;
use committee::Stake;
use committee_aggregator::StakeAggregator;
use committee_set::AuthoritySet;

// 5, 10, 11, then 20 for bytes that are no locator, 40 for no room of three words, then whom to ring.
fn ring_in(
    stakes: &[u64],
    store: &[u8],
    table: &[u64],
    reachable: AuthoritySet,
    locator: &[u8],
    room: usize,
) -> Result<(AuthoritySet, Stake), Refusal>
    ensures { as_ring result ≡ ring_in stakes.now store.now table.now reachable (locator_of locator.now) room }
{
    pending_question::lent_refusal(stakes, store, table)?;
    if locator.len() != types::LOCATOR_BYTES {
        return Err(Refusal::Malformed);
    }
    if room != 24 {
        return Err(Refusal::AnswerSlice);
    }
    ring_pending::ring_at(
        stakes,
        store,
        table,
        reachable,
        record_reference_bytes::read_locator(locator, 0),
    )
}

fn ring_of(
    stakes: &[u64],
    store: &[u8],
    table: &[u8],
    reachable: AuthoritySet,
    locator: &[u8],
    room: usize,
) -> Result<(AuthoritySet, Stake), Refusal>
    ensures { as_ring result ≡ asked_ring stakes.now store.now table.now reachable (locator_of locator.now) room }
{
    if table.len() != host_calls::TABLE_BYTES {
        return Err(host_locators::refusal_before(Refusal::TableNotInOrder, stakes, store));
    }
    let mut words = [0u64; host_calls::TABLE_WORDS];
    words::words_of(table, &mut words);
    ring_in(stakes, store, &words, reachable, locator, room)
}

// The number of owners to ring; `found` takes the two words of their set, and their stake.
pub fn whom_to_ring(
    stakes: &[u8],
    store: &[u8],
    table: &[u8],
    low: u64,
    high: u64,
    locator: &[u8],
    found: &mut [u8],
) -> u64
    ensures value { result ≡ encoded (whom_to_ring_call stakes.now store.now table.now low high locator.now found.old).answer }
    ensures found_after { found.new ≡ (whom_to_ring_call stakes.now store.now table.now low high locator.now found.old).found }
{
    let mut held = [0u64; committee::MAX_MEMBERS];
    let n = host_calls::stakes_of(stakes, &mut held);
    let reachable = AuthoritySet { low, high };
    let answer = ring_of(&held[..n], store, table, reachable, locator, found.len());
    tell(answer, found)
}

// Tells whom to ring: their number, and in `found` the two words of their set and their stake.
fn tell(answer: Result<(AuthoritySet, Stake), Refusal>, found: &mut [u8]) -> u64
    requires { Tellable (as_ring answer) (length found.old) }
    ensures { (result ≡ encoded (ring_told (as_ring answer) found.old).answer) × (found.new ≡ (ring_told (as_ring answer) found.old).found) }
{
    match answer {
        Ok((owners, stake)) => {
            host_add::write_aggregator(
                found,
                StakeAggregator {
                    votes: owners,
                    stake,
                },
            );
            owners.count()
        }
        Err(refusal) => host_calls::refused(refusal),
    }
}

// 5, or 40 for no room of three words.
fn no_room(stakes: &[u64]) -> Refusal
    ensures { refusal_number result ≡ refusal ((broken stakes.now ⇒ 5) ∷ (true ⇒ 40) ∷ []) }
{
    let Ok(_) = committee::new_committee(stakes) else {
        return Refusal::BrokenCommittee;
    };
    Refusal::AnswerSlice
}

fn fewest_of(
    stakes: &[u64],
    voters: AuthoritySet,
    reachable: AuthoritySet,
    room: usize,
) -> Result<(AuthoritySet, Stake), Refusal>
    ensures { as_ring result ≡ fewest_in stakes.now voters reachable room }
{
    if room != 24 {
        return Err(no_room(stakes));
    }
    ring_fewest::fewest_owners(stakes, voters, reachable)
}

// The same for any set of voters, without a store or a table.
pub fn fewest_owners(
    stakes: &[u8],
    voters_low: u64,
    voters_high: u64,
    reachable_low: u64,
    reachable_high: u64,
    found: &mut [u8],
) -> u64
    ensures value { result ≡ encoded (fewest_owners_call stakes.now voters_low voters_high reachable_low reachable_high found.old).answer }
    ensures found_after { found.new ≡ (fewest_owners_call stakes.now voters_low voters_high reachable_low reachable_high found.old).found }
{
    let mut held = [0u64; committee::MAX_MEMBERS];
    let n = host_calls::stakes_of(stakes, &mut held);
    let voters = AuthoritySet {
        low: voters_low,
        high: voters_high,
    };
    let reachable = AuthoritySet {
        low: reachable_low,
        high: reachable_high,
    };
    let answer = fewest_of(&held[..n], voters, reachable, found.len());
    tell(answer, found)
}
