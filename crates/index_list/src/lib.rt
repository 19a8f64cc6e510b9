// The lists of final locators in bulk, with the index: it is held against the store (54), and the list is then that of the store, which is opened once.
// One sweep over the store takes less than a walk over the parts of an index, which the check has read already.
#![tactic(auto)]

ghost use Rattle.std.specs.Prelude.{◌≡◌, true, false};
ghost use Rattle.final_spec.specs.Finality.{blocks_of};
ghost use Rattle.types.specs.Values.{as_maybe};
ghost use Rattle.list_stretches_spec.specs.Stretches.{wide};
ghost use Rattle.list_ordinary_spec.specs.Ordinary.{ordinary};
ghost use Rattle.final_readings_spec.specs.Readings.{old};
ghost use Rattle.list_readings_spec.specs.Answers.{is_ordinary};
ghost use Rattle.list_readings_spec.specs.Lists.{listing};
ghost use Rattle.list_stretch_bytes.specs.Answers.{as_stretches};
ghost use Rattle.index_list_spec.specs.Indexed.{list_stretches_indexed};

use base::Refusal;
use final_readings_spec::Reading;
use list_readings_spec::FinalList;
use list_stretch_bytes::Stretches;
use types::TransactionLocator;

// The ordinary or the wide list with the index, from the start or after a given locator on, as many stretches as the slice holds.
pub fn list_stretches_indexed(
    stakes: &[u64],
    store: &[u8],
    list: FinalList,
    index: &[u64],
    out: &mut [u8],
    after: Option<TransactionLocator>,
) -> Result<Stretches, Refusal>
    ensures result_value { as_stretches result ≡ (list_stretches_indexed stakes.now store.now index.now (listing (is_ordinary list) old stakes.now (blocks_of store.now)) out.old (as_maybe after)).answer }
    ensures out_after { out.new ≡ (list_stretches_indexed stakes.now store.now index.now (listing (is_ordinary list) old stakes.now (blocks_of store.now)) out.old (as_maybe after)).out }
{
    let mut order = [0u64; types::MAX_BLOCKS];
    let mut starts = [0u64; types::MAX_BLOCKS];
    let question = index_lent::question_refusal(stakes, store, index, &mut order, &mut starts)?;
    let total = question.total;
    let count = question.count;
    list_bulk::fill_stretches(
        stakes,
        total,
        store,
        &order[..count],
        list,
        Reading::Old,
        out,
        after,
    )
}

// The ordinary list, of the final stored shares, with the index: from the start or after a given locator on, as many stretches as the slice
// holds, 80 bytes each as in `list_bulk`. The bytes past them stay.
pub fn final_stretches_indexed(
    stakes: &[u64],
    store: &[u8],
    index: &[u64],
    out: &mut [u8],
    after: Option<TransactionLocator>,
) -> Result<Stretches, Refusal>
    ensures result_value { as_stretches result ≡ (list_stretches_indexed stakes.now store.now index.now (ordinary stakes.now (blocks_of store.now)) out.old (as_maybe after)).answer }
    ensures out_after { out.new ≡ (list_stretches_indexed stakes.now store.now index.now (ordinary stakes.now (blocks_of store.now)) out.old (as_maybe after)).out }
{
    list_stretches_indexed(stakes, store, FinalList::Ordinary, index, out, after)
}

// The wide list, of every final locator, with the index.
pub fn wide_stretches_indexed(
    stakes: &[u64],
    store: &[u8],
    index: &[u64],
    out: &mut [u8],
    after: Option<TransactionLocator>,
) -> Result<Stretches, Refusal>
    ensures result_value { as_stretches result ≡ (list_stretches_indexed stakes.now store.now index.now (wide stakes.now (blocks_of store.now)) out.old (as_maybe after)).answer }
    ensures out_after { out.new ≡ (list_stretches_indexed stakes.now store.now index.now (wide stakes.now (blocks_of store.now)) out.old (as_maybe after)).out }
{
    list_stretches_indexed(stakes, store, FinalList::Wide, index, out, after)
}
