// The refusals of a feed with the index that come before the record is tried.
#![tactic(auto)]

ghost use Rattle.std.specs.Prelude.{◌≡◌, ◌≤◌, length, take, IfOk};
ghost use Rattle.base.specs.Checks.{refusal};
ghost use Rattle.base.specs.Refusals.{refusal_in};
ghost use Rattle.index_feed_spec.specs.IndexedFeed.{indexed_lent_checks};
ghost use Rattle.index_feed_refusals.specs.Refusals.{early_indexed_checks};
ghost use Rattle.index_feed_refusals.specs.Step.{Agreed};

use base::Refusal;

// The first refusal of a feed before those about memory (5, 10, 11, 54, 20 to 30).
pub fn early_refusal(
    stakes: &[u64],
    store: &[u8],
    table: &[u64],
    index: &[u64],
    rec: &[u8],
) -> Result<(), Refusal>
    ensures { refusal_in result ≡ refusal (early_indexed_checks stakes.now store.now table.now index.now rec.now) }
{
    let mut order = [0u64; types::MAX_BLOCKS];
    let mut starts = [0u64; types::MAX_BLOCKS];
    let count = lent_refusal(stakes, store, table, index, &mut order, &mut starts)?;
    if !record_reader::well_formed(rec) {
        return Err(Refusal::Malformed);
    }
    feed_checks::block_refusal(stakes, store, &order[..count], rec)
}

// 5, 10, 11, 54; where none applies, how many blocks are stored, and then `order` and `starts` say in what order the blocks are sorted and where their
// parts stand.
pub fn lent_refusal(
    stakes: &[u64],
    store: &[u8],
    table: &[u64],
    index: &[u64],
    order: &mut [u64],
    starts: &mut [u64],
) -> Result<usize, Refusal>
    requires { (1024 ≤ length order.old) × (1024 ≤ length starts.old) }
    ensures refusal_value { refusal_in result ≡ refusal (indexed_lent_checks stakes.now store.now table.now index.now) }
    ensures count_bound { IfOk result (λ count. (count ≤ 1024) × Agreed stakes.now store.now table.now index.now (take count order.new) starts.new) }
{
    pending_question::lent_refusal(stakes, store, table)?;
    let count = final_block_votes::sorted_positions(store, order);
    if !index_lent::agrees(store, &order[..count], index, starts) {
        return Err(Refusal::IndexDisagrees);
    }
    Ok(count)
}
