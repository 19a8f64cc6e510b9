// Finality over the stored blocks: whether a locator is final. Follows finalization_interpreter.rs; the Rust has the old reading alone, in which nobody
// withdraws.
#![tactic(auto)]

ghost use Rattle.std.specs.Prelude.{◌≡◌};
ghost use Rattle.types.specs.Values.{as_locator};
ghost use Rattle.final_spec.specs.Finality.{finality};
ghost use Rattle.final_question.specs.Answers.{as_finality};
ghost use Rattle.final_readings_spec.specs.Readings.{withdrawing};
ghost use Rattle.final_readings_spec.specs.Answers.{as_reading};
ghost use Rattle.final_readings_spec.specs.Finality.{finality_in};

use base::Refusal;
use final_readings_spec::Reading;
use types::TransactionLocator;

// Final or not, with the number of certifying blocks.
#[derive(Clone, Copy)]
pub enum FinalOrNot {
    Final(u64),
    NotFinal(u64),
}

// Whether a locator is final in the reading that is asked for. The positions of the certifying blocks are written in ascending reference order;
// the words past them stay (5, 10, 40).
pub fn finality_in(
    stakes: &[u64],
    store: &[u8],
    positions: &mut [u64],
    locator: TransactionLocator,
    reading: Reading,
) -> Result<FinalOrNot, Refusal>
    ensures result_value { as_finality result ≡ (finality_in (as_reading reading) stakes.now store.now positions.old (as_locator locator)).answer }
    ensures positions_after { positions.new ≡ (finality_in (as_reading reading) stakes.now store.now positions.old (as_locator locator)).positions }
{
    let Ok(total) = committee::new_committee(stakes) else {
        return Err(Refusal::BrokenCommittee);
    };
    if !store_order::in_order(stakes, store) {
        return Err(Refusal::StoreNotInOrder);
    }
    let mut order = [0u64; types::MAX_BLOCKS];
    let count = final_block_votes::sorted_positions(store, &mut order);
    if positions.len() < count {
        return Err(Refusal::AnswerSlice);
    }
    let found = final_certifying::certifying_blocks_in(
        stakes,
        total,
        store,
        &order[..count],
        locator,
        reading,
        positions,
    );
    if committee::is_quorum(total, committee_set::stake_of(stakes, found.authors)) {
        return Ok(FinalOrNot::Final(found.blocks as u64));
    }
    Ok(FinalOrNot::NotFinal(found.blocks as u64))
}

// Whether a locator is final, and which blocks certify it.
pub fn finality(
    stakes: &[u64],
    store: &[u8],
    positions: &mut [u64],
    locator: TransactionLocator,
) -> Result<FinalOrNot, Refusal>
    ensures result_value { as_finality result ≡ (finality stakes.now store.now positions.old (as_locator locator)).answer }
    ensures positions_after { positions.new ≡ (finality stakes.now store.now positions.old (as_locator locator)).positions }
{
    finality_in(stakes, store, positions, locator, Reading::Old)
}

// The same in the reading in which an owner may withdraw.
pub fn finality_withdrawing(
    stakes: &[u64],
    store: &[u8],
    positions: &mut [u64],
    locator: TransactionLocator,
) -> Result<FinalOrNot, Refusal>
    ensures result_value { as_finality result ≡ (finality_in withdrawing stakes.now store.now positions.old (as_locator locator)).answer }
    ensures positions_after { positions.new ≡ (finality_in withdrawing stakes.now store.now positions.old (as_locator locator)).positions }
{
    finality_in(stakes, store, positions, locator, Reading::Withdrawing)
}
