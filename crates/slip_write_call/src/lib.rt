// Writes the slip of a final locator, in either reading, or answers why not.
#![tactic(auto)]

ghost use Rattle.std.specs.Prelude.{◌≡◌, map, ◌≤◌, length};
ghost use Rattle.committee.specs.Committee.{total_stake};
ghost use Rattle.committee_set.specs.AuthoritySet.{set_of};
ghost use Rattle.record_spec.specs.Block.{author};
ghost use Rattle.types.specs.Values.{as_locator};
ghost use Rattle.final_spec.specs.Finality.{blocks_of};
ghost use Rattle.final_block_votes.specs.Walk.{Sorted};
ghost use Rattle.final_readings_spec.specs.Readings.{old, withdrawing, certifiers_in};
ghost use Rattle.final_readings_spec.specs.Finality.{certifying_positions_in};
ghost use Rattle.final_readings_spec.specs.Answers.{as_reading};
ghost use Rattle.slip_spec.specs.Writing.{write_slip};
ghost use Rattle.slip_write_table.specs.Table.{Listed};
ghost use Rattle.slip_write_bytes.specs.Answers.{as_slip_answer};

use base::Refusal;
use committee::Stake;
use final_certifying::Certifiers;
use final_readings_spec::Reading;
use types::TransactionLocator;

// Lists the blocks that certify a locator in the reading that is asked for, with their voters, which are worked out once.
fn list_found(
    stakes: &[u64],
    total: Stake,
    store: &[u8],
    order: &[u64],
    locator: TransactionLocator,
    reading: Reading,
    certifiers: &mut [u64],
) -> Certifiers
    requires { (Sorted stakes.now store.now order.now × (total.0 ≡ total_stake stakes.now)) × ((length order.now ≤ 1024) × (length certifiers.old ≡ 3072)) }
    ensures blocks_value { result.blocks ≡ length (certifying_positions_in (as_reading reading) stakes.now store.now (as_locator locator)) }
    ensures authors_value { result.authors ≡ set_of (map author (certifiers_in (as_reading reading) stakes.now (blocks_of store.now) (as_locator locator))) }
    ensures listed { Listed (as_reading reading) store.now order.now (as_locator locator) (certifying_positions_in (as_reading reading) stakes.now store.now (as_locator locator)) certifiers.new result.blocks }
{
    let mut positions = [0u64; types::MAX_BLOCKS];
    let mut memo = [0u64; final_voters::BOTH_WORDS];
    let found = final_certifying::find_certifying_blocks(
        stakes,
        total,
        store,
        order,
        locator,
        reading,
        &mut positions,
        &mut memo,
    );
    slip_write_table::list_certifiers(
        store,
        order,
        locator,
        reading,
        &positions[..found.blocks],
        &mut memo,
        certifiers,
    );
    found
}

// Writes the slip of a locator over the stored blocks in order, in the reading that is asked for; 52 where it is not final there.
fn write_found(
    stakes: &[u64],
    total: Stake,
    store: &[u8],
    order: &[u64],
    locator: TransactionLocator,
    reading: Reading,
    out: &mut [u8],
) -> Result<usize, Refusal>
    requires { (Sorted stakes.now store.now order.now × (total.0 ≡ total_stake stakes.now)) × (length order.now ≤ 1024) }
    ensures result_value { as_slip_answer result ≡ (write_slip (as_reading reading) stakes.now store.now out.old (as_locator locator)).answer }
    ensures out_after { out.new ≡ (write_slip (as_reading reading) stakes.now store.now out.old (as_locator locator)).out }
{
    let mut certifiers = [0u64; 3072];
    let found = list_found(
        stakes,
        total,
        store,
        order,
        locator,
        reading,
        &mut certifiers,
    );
    if !committee::is_quorum(total, committee_set::stake_of(stakes, found.authors)) {
        return Err(Refusal::SlipNotHeld);
    }
    slip_write_bytes::write_listed(
        store,
        order,
        locator,
        reading,
        &certifiers,
        found.blocks,
        out,
    )
}

// Writes the slip of a locator that is final in the reading that is asked for, and answers its length; bytes past it stay.
pub fn write_slip_in(
    stakes: &[u64],
    store: &[u8],
    locator: TransactionLocator,
    reading: Reading,
    out: &mut [u8],
) -> Result<usize, Refusal>
    ensures result_value { as_slip_answer result ≡ (write_slip (as_reading reading) stakes.now store.now out.old (as_locator locator)).answer }
    ensures out_after { out.new ≡ (write_slip (as_reading reading) stakes.now store.now out.old (as_locator locator)).out }
{
    let Ok(total) = committee::new_committee(stakes) else {
        return Err(Refusal::BrokenCommittee);
    };
    if !store_order::in_order(stakes, store) {
        return Err(Refusal::StoreNotInOrder);
    }
    let mut order = [0u64; types::MAX_BLOCKS];
    let count = final_block_votes::sorted_positions(store, &mut order);
    write_found(stakes, total, store, &order[..count], locator, reading, out)
}

// Writes the slip of a final locator into `out` and answers its length; bytes past it stay. 5, 10, 52 for a locator that is not final, 50.
pub fn write_slip(
    stakes: &[u64],
    store: &[u8],
    locator: TransactionLocator,
    out: &mut [u8],
) -> Result<usize, Refusal>
    ensures result_value { as_slip_answer result ≡ (write_slip old stakes.now store.now out.old (as_locator locator)).answer }
    ensures out_after { out.new ≡ (write_slip old stakes.now store.now out.old (as_locator locator)).out }
{
    write_slip_in(stakes, store, locator, Reading::Old, out)
}

// The same in the reading in which an owner may withdraw.
pub fn write_slip_withdrawing(
    stakes: &[u64],
    store: &[u8],
    locator: TransactionLocator,
    out: &mut [u8],
) -> Result<usize, Refusal>
    ensures result_value { as_slip_answer result ≡ (write_slip withdrawing stakes.now store.now out.old (as_locator locator)).answer }
    ensures out_after { out.new ≡ (write_slip withdrawing stakes.now store.now out.old (as_locator locator)).out }
{
    write_slip_in(stakes, store, locator, Reading::Withdrawing, out)
}
