// The refusals of a feed: those before memory is asked for, and of a committee, a store and a table in order those of the record. Follows committee.rs
// (`TransactionAggregator`) and block_store.rs.
#![tactic(auto)]

ghost use Rattle.std.specs.Prelude.{◌≡◌, true};
ghost use Rattle.base.specs.Checks.{refusal};
ghost use Rattle.base.specs.Refusals.{refusal_in};
ghost use Rattle.store_spec.specs.Layout.{read_record};
ghost use Rattle.store_spec.specs.Store.{records_of};
ghost use Rattle.store_spec.specs.Entry.{laid_out, sorted_positions};
ghost use Rattle.feed_spec.specs.Pending.{pending_checks};
ghost use Rattle.feed_spec.specs.Feed.{feed_checks, lent_of};
ghost use Rattle.feed_refusals.specs.Refusals.{early_checks};
ghost use Rattle.feed_refusals.specs.Step.{Accepting};

use base::Refusal;

// Of a committee, a store and a table that are in order: the first refusal of a feed (12, 20 to 30, 15, 13, 14).
pub fn record_refusal(
    stakes: &[u64],
    store: &[u8],
    order: &[u64],
    table: &[u64],
    work: &mut [u64],
    events: &mut [u64],
    rec: &[u8],
) -> Result<(), Refusal>
    requires { (refusal (pending_checks stakes.now store.now table.now) ≡ 0) × (laid_out store.now ≡ true) × (order.now ≡ sorted_positions (records_of store.now)) }
    ensures first { refusal_in result ≡ refusal (feed_checks stakes.now (lent_of store.now table.now work.old events.old) (read_record rec.now)) }
    ensures accepting { refusal_in result ≡ 0 → Accepting stakes.now store.now table.now events.old rec.now }
    ensures kept { events.new ≡ events.old }
{
    if work.len() < table.len() {
        return Err(Refusal::WorkTooShort);
    }
    feed_checks::record_refusal(stakes, store, order, rec, events.len())?;
    if !feed_items_fit::items_fit(stakes, store, order, rec, table, work, events) {
        return Err(Refusal::TableFull);
    }
    Ok(())
}

// The first refusal of a feed before those about memory (5, 10, 11, 20 to 30).
pub fn early_refusal(stakes: &[u64], store: &[u8], table: &[u64], rec: &[u8]) -> Result<(), Refusal>
    ensures { refusal_in result ≡ refusal (early_checks stakes.now store.now table.now rec.now) }
{
    pending_question::lent_refusal(stakes, store, table)?;
    if !record_reader::well_formed(rec) {
        return Err(Refusal::Malformed);
    }
    let mut order = [0u64; types::MAX_BLOCKS];
    let count = final_block_votes::sorted_positions(store, &mut order);
    feed_checks::block_refusal(stakes, store, &order[..count], rec)
}
