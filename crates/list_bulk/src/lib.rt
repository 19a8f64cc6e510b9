// The lists of final locators in bulk, the ordinary and the wide one, in either reading of a reject: stretches of locators that have the same certifying blocks.
#![tactic(auto)]

ghost use Rattle.std.specs.Prelude.{◌≡◌, true, false};
ghost use Rattle.base.specs.Checks.{answered};
ghost use Rattle.final_spec.specs.Finality.{blocks_of};
ghost use Rattle.types.specs.Values.{as_maybe};
ghost use Rattle.list_stretches_spec.specs.Stretches.{stretches};
ghost use Rattle.list_stretches_spec.specs.Bulk.{given_after, stretch_room, bytes_after, final_stretches};
ghost use Rattle.list_ordinary_spec.specs.Ordinary.{share_stretches};
ghost use Rattle.final_readings_spec.specs.Readings.{withdrawing};
ghost use Rattle.final_readings_spec.specs.Answers.{as_reading};
ghost use Rattle.list_readings_spec.specs.Answers.{is_ordinary};
ghost use Rattle.list_readings_spec.specs.Lists.{listing, listed_stretches};
ghost use Rattle.list_walk.specs.Walk.{Ready};
ghost use Rattle.list_stretch_bytes.specs.Answers.{as_stretches};

use base::Refusal;
use committee::Stake;
use final_readings_spec::Reading;
use list_lanes::Wanted;
use list_readings_spec::FinalList;
use list_stretch_bytes::Stretches;
use types::TransactionLocator;

// ---- the question in bulk

// A list in a reading over a store in order, by one sweep over the edges of its blocks' ranges.
pub fn fill_stretches(
    stakes: &[u64],
    total: Stake,
    store: &[u8],
    order: &[u64],
    list: FinalList,
    reading: Reading,
    out: &mut [u8],
    after: Option<TransactionLocator>,
) -> Result<Stretches, Refusal>
    requires { Ready stakes.now total.0 store.now order.now }
    ensures result_value { as_stretches result ≡ answered (given_after (listing (is_ordinary list) (as_reading reading) stakes.now (blocks_of store.now)) (as_maybe after) (stretches stakes.now (blocks_of store.now) (listing (is_ordinary list) (as_reading reading) stakes.now (blocks_of store.now)) (stretch_room out.old) (as_maybe after))) }
    ensures out_after { out.new ≡ bytes_after (stretches stakes.now (blocks_of store.now) (listing (is_ordinary list) (as_reading reading) stakes.now (blocks_of store.now)) (stretch_room out.old) (as_maybe after)) out.old }
{
    let mut sets = [0u64; list_include_sets::WORDS];
    list_include_sets::note_includes(store, order, &mut sets);
    let wanted = Wanted { reading, list };
    list_stretches::fill(stakes, total, store, order, &sets, wanted, out, after)
}

// A list in a reading from the start or after a given locator on, as many stretches as the slice holds. The store is checked once for the call
// (5, 10).
pub fn list_stretches(
    stakes: &[u64],
    store: &[u8],
    list: FinalList,
    reading: Reading,
    out: &mut [u8],
    after: Option<TransactionLocator>,
) -> Result<Stretches, Refusal>
    ensures result_value { as_stretches result ≡ (listed_stretches (is_ordinary list) (as_reading reading) stakes.now store.now out.old (as_maybe after)).answer }
    ensures out_after { out.new ≡ (listed_stretches (is_ordinary list) (as_reading reading) stakes.now store.now out.old (as_maybe after)).out }
{
    let Ok(total) = committee::new_committee(stakes) else {
        return Err(Refusal::BrokenCommittee);
    };
    if !store_order::in_order(stakes, store) {
        return Err(Refusal::StoreNotInOrder);
    }
    let mut order = [0u64; types::MAX_BLOCKS];
    let count = final_block_votes::sorted_positions(store, &mut order);
    fill_stretches(
        stakes,
        total,
        store,
        &order[..count],
        list,
        reading,
        out,
        after,
    )
}

// The ordinary list, of the final stored shares, from the start or after a given locator on, as many stretches as the slice holds, 80 bytes
// each: the first locator as it stands in a record, end offset (excluded), number of certifying blocks, their authors' stake. The bytes past them stay.
pub fn final_stretches(
    stakes: &[u64],
    store: &[u8],
    out: &mut [u8],
    after: Option<TransactionLocator>,
) -> Result<Stretches, Refusal>
    ensures result_value { as_stretches result ≡ (share_stretches stakes.now store.now out.old (as_maybe after)).answer }
    ensures out_after { out.new ≡ (share_stretches stakes.now store.now out.old (as_maybe after)).out }
{
    list_stretches(stakes, store, FinalList::Ordinary, Reading::Old, out, after)
}

// The wide list, of every final locator, in the same form.
pub fn wide_stretches(
    stakes: &[u64],
    store: &[u8],
    out: &mut [u8],
    after: Option<TransactionLocator>,
) -> Result<Stretches, Refusal>
    ensures result_value { as_stretches result ≡ (final_stretches stakes.now store.now out.old (as_maybe after)).answer }
    ensures out_after { out.new ≡ (final_stretches stakes.now store.now out.old (as_maybe after)).out }
{
    list_stretches(stakes, store, FinalList::Wide, Reading::Old, out, after)
}

// The ordinary list where owners may withdraw, in the same form.
pub fn final_stretches_withdrawing(
    stakes: &[u64],
    store: &[u8],
    out: &mut [u8],
    after: Option<TransactionLocator>,
) -> Result<Stretches, Refusal>
    ensures result_value { as_stretches result ≡ (listed_stretches true withdrawing stakes.now store.now out.old (as_maybe after)).answer }
    ensures out_after { out.new ≡ (listed_stretches true withdrawing stakes.now store.now out.old (as_maybe after)).out }
{
    list_stretches(
        stakes,
        store,
        FinalList::Ordinary,
        Reading::Withdrawing,
        out,
        after,
    )
}

// The wide list where owners may withdraw, in the same form.
pub fn wide_stretches_withdrawing(
    stakes: &[u64],
    store: &[u8],
    out: &mut [u8],
    after: Option<TransactionLocator>,
) -> Result<Stretches, Refusal>
    ensures result_value { as_stretches result ≡ (listed_stretches false withdrawing stakes.now store.now out.old (as_maybe after)).answer }
    ensures out_after { out.new ≡ (listed_stretches false withdrawing stakes.now store.now out.old (as_maybe after)).out }
{
    list_stretches(
        stakes,
        store,
        FinalList::Wide,
        Reading::Withdrawing,
        out,
        after,
    )
}
