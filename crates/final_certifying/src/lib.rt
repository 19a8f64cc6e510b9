// The blocks that certify a locator, in ascending reference order, and their authors. Follows finalization_interpreter.rs.
#![tactic(auto)]

ghost use Rattle.std.specs.Prelude.{◌≡◌, ◌++◌, map, ◌≤◌, length, drop};
ghost use Rattle.committee.specs.Committee.{total_stake};
ghost use Rattle.committee_set.specs.AuthoritySet.{set_of};
ghost use Rattle.record_spec.specs.Block.{author};
ghost use Rattle.types.specs.Values.{as_locator};
ghost use Rattle.final_spec.specs.Finality.{blocks_of};
ghost use Rattle.final_block_votes.specs.Walk.{Sorted};
ghost use Rattle.final_readings_spec.specs.Answers.{as_reading};
ghost use Rattle.final_readings_spec.specs.Readings.{certifiers_in};
ghost use Rattle.final_readings_spec.specs.Finality.{certifying_positions_in};
ghost use Rattle.final_voters.specs.Walk.{RemembersBoth};

use committee::Stake;
use committee_set::AuthoritySet;
use final_readings_spec::Reading;
use types::TransactionLocator;

// The blocks that certify a locator: how many, and their authors.
#[derive(Clone, Copy)]
pub struct Certifiers {
    pub blocks: usize,
    pub authors: AuthoritySet,
}

// Finds the blocks that certify a locator in the reading that is asked for, and writes their positions in ascending reference order. What is worked out of
// voters and rejecters is left in the memory.
pub fn find_certifying_blocks(
    stakes: &[u64],
    total: Stake,
    store: &[u8],
    order: &[u64],
    locator: TransactionLocator,
    reading: Reading,
    positions: &mut [u64],
    memo: &mut [u64],
) -> Certifiers
    requires { (Sorted stakes.now store.now order.now × (total.0 ≡ total_stake stakes.now)) × ((length order.now ≤ length positions.old) × RemembersBoth store.now order.now (as_locator locator) memo.old) }
    ensures blocks_value { result.blocks ≡ length (certifying_positions_in (as_reading reading) stakes.now store.now (as_locator locator)) }
    ensures authors_value { result.authors ≡ set_of (map author (certifiers_in (as_reading reading) stakes.now (blocks_of store.now) (as_locator locator))) }
    ensures positions_after { positions.new ≡ certifying_positions_in (as_reading reading) stakes.now store.now (as_locator locator) ++ drop (length (certifying_positions_in (as_reading reading) stakes.now store.now (as_locator locator))) positions.old }
    ensures remembers_both { RemembersBoth store.now order.now (as_locator locator) memo.new }
{
    let mut authors = AuthoritySet::new();
    let mut blocks: usize = 0;
    for k in 0..order.len() {
        let at = order[k] as usize;
        let found = final_certificates::certifies_at(
            stakes, total, store, order, locator, reading, k, memo,
        );
        if !found {
            continue;
        }
        positions[blocks] = at as u64;
        blocks += 1;
        let block = store_entries::reference_at(store, at);
        authors = authors.insert(block.authority);
    }
    Certifiers { blocks, authors }
}

// The same with a memory of its own.
pub fn certifying_blocks_in(
    stakes: &[u64],
    total: Stake,
    store: &[u8],
    order: &[u64],
    locator: TransactionLocator,
    reading: Reading,
    positions: &mut [u64],
) -> Certifiers
    requires { (Sorted stakes.now store.now order.now × (total.0 ≡ total_stake stakes.now)) × ((length order.now ≤ 1024) × (length order.now ≤ length positions.old)) }
    ensures blocks_value { result.blocks ≡ length (certifying_positions_in (as_reading reading) stakes.now store.now (as_locator locator)) }
    ensures authors_value { result.authors ≡ set_of (map author (certifiers_in (as_reading reading) stakes.now (blocks_of store.now) (as_locator locator))) }
    ensures positions_after { positions.new ≡ certifying_positions_in (as_reading reading) stakes.now store.now (as_locator locator) ++ drop (length (certifying_positions_in (as_reading reading) stakes.now store.now (as_locator locator))) positions.old }
{
    let mut memo = [0u64; final_voters::BOTH_WORDS];
    find_certifying_blocks(
        stakes, total, store, order, locator, reading, positions, &mut memo,
    )
}
