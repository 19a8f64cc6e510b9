// The certifying blocks of a slip, each with its voters, listed in a table of three words each.
#![tactic(auto)]

ghost use Rattle.std.specs.Prelude.{◌≡◌, ℕ, ◌+◌, ◌*◌, ◌≤◌, ◌<◌, length, get_or};
ghost use Rattle.base.specs.Lists.{◌∈◌};
ghost use Rattle.types.specs.Values.{as_locator};
ghost use Rattle.final_block_votes.specs.Walk.{SortedStore, block_at_place};
ghost use Rattle.final_spec.specs.Finality.{blocks_of};
ghost use Rattle.final_readings_spec.specs.Readings.{voters_in};
ghost use Rattle.final_readings_spec.specs.Answers.{as_reading};
ghost use Rattle.final_voters.specs.Walk.{RemembersBoth};
ghost use Rattle.slip_write_table.specs.Table.{noted, Listed};

use committee_set::AuthoritySet;
use final_readings_spec::{Reading, Speech};
use types::TransactionLocator;

// Puts a certifying block, which stands at place k, into the table with its voters.
fn note_certifier(certifiers: &mut [u64], i: usize, k: usize, voters: AuthoritySet)
    requires { 3 * i + 3 ≤ length certifiers.old }
    ensures { certifiers.new ≡ noted certifiers.old i k voters }
{
    let at = 3 * i;
    certifiers[at] = k as u64;
    certifiers[at + 1] = voters.low;
    certifiers[at + 2] = voters.high;
}

// The voters of the block at a place, in the reading that is asked for.
fn voters_at(
    store: &[u8],
    order: &[u64],
    locator: TransactionLocator,
    reading: Reading,
    k: usize,
    memo: &mut [u64],
) -> AuthoritySet
    requires { (SortedStore store.now order.now × (k < length order.now)) × RemembersBoth store.now order.now (as_locator locator) memo.old }
    ensures value { result ≡ voters_in (as_reading reading) (blocks_of store.now) (as_locator locator) (block_at_place store.now order.now k).reference }
    ensures remembers_both { RemembersBoth store.now order.now (as_locator locator) memo.new }
{
    let voting = final_voters::speakers_at(store, order, locator, Speech::Votes, k, memo);
    if let Reading::Old = reading {
        return voting;
    }
    let rejecting = final_voters::speakers_at(store, order, locator, Speech::Rejects, k, memo);
    committee_set::less(voting, rejecting)
}

// Puts the blocks at some positions into the table, with their voters in the reading that is asked for; what the memory has is not worked out again.
pub fn list_certifiers(
    store: &[u8],
    order: &[u64],
    locator: TransactionLocator,
    reading: Reading,
    positions: &[u64],
    memo: &mut [u64],
    certifiers: &mut [u64],
)
    requires { (SortedStore store.now order.now × RemembersBoth store.now order.now (as_locator locator) memo.old) × (((i : ℕ) → i < length positions.now → get_or positions.now i 0 ∈ order.now) × (3 * length positions.now ≤ length certifiers.old)) }
    ensures { Listed (as_reading reading) store.now order.now (as_locator locator) positions.now certifiers.new (length positions.now) }
{
    for i in 0..positions.len() {
        let block = store_entries::reference_at(store, positions[i] as usize);
        let k = final_block_votes::place_of(store, order, block);
        let voters = voters_at(store, order, locator, reading, k, memo);
        note_certifier(certifiers, i, k, voters);
    }
}
