// Feeding a record with the index beside the store: one call over the committee and all lent memory.
#![tactic(auto)]

ghost use Rattle.std.specs.Prelude.{◌≡◌};
ghost use Rattle.feed_spec.specs.Feed.{lent_of};
ghost use Rattle.feed_single.specs.Answers.{as_feed_answer};
ghost use Rattle.index_feed_spec.specs.IndexedFeed.{feed_indexed};
ghost use Rattle.index_feed_refusals.specs.Step.{Agreed};

use base::Refusal;

// Feeds a record as `feed_single::feed` does, and appends its part to the index. A refusal writes nothing but the work slice.
pub fn feed_indexed(
    stakes: &[u64],
    store: &mut [u8],
    table: &mut [u64],
    index: &mut [u64],
    work: &mut [u64],
    events: &mut [u64],
    rec: &[u8],
) -> Result<u64, Refusal>
    ensures result_value { as_feed_answer result ≡ (feed_indexed stakes.now (lent_of store.old table.old work.old events.old) index.old rec.now).fed.answer }
    ensures store_after { store.new ≡ (feed_indexed stakes.now (lent_of store.old table.old work.old events.old) index.old rec.now).fed.store }
    ensures table_after { table.new ≡ (feed_indexed stakes.now (lent_of store.old table.old work.old events.old) index.old rec.now).fed.table }
    ensures index_after { index.new ≡ (feed_indexed stakes.now (lent_of store.old table.old work.old events.old) index.old rec.now).index }
    ensures events_after { events.new ≡ (feed_indexed stakes.now (lent_of store.old table.old work.old events.old) index.old rec.now).fed.events }
{
    let mut order = [0u64; types::MAX_BLOCKS];
    let mut starts = [0u64; types::MAX_BLOCKS];
    let count = index_feed_refusals::lent_refusal(
        stakes,
        store,
        table,
        index,
        &mut order,
        &mut starts,
    )?;
    feed_agreed(
        stakes,
        store,
        &order[..count],
        &starts,
        table,
        index,
        work,
        events,
        rec,
    )
}

// Feeds a record to a store and a table in order, with an index that agrees.
pub fn feed_agreed(
    stakes: &[u64],
    store: &mut [u8],
    order: &[u64],
    starts: &[u64],
    table: &mut [u64],
    index: &mut [u64],
    work: &mut [u64],
    events: &mut [u64],
    rec: &[u8],
) -> Result<u64, Refusal>
    requires { Agreed stakes.now store.old table.old index.old order.now starts.now }
    ensures result_value { as_feed_answer result ≡ (feed_indexed stakes.now (lent_of store.old table.old work.old events.old) index.old rec.now).fed.answer }
    ensures store_after { store.new ≡ (feed_indexed stakes.now (lent_of store.old table.old work.old events.old) index.old rec.now).fed.store }
    ensures table_after { table.new ≡ (feed_indexed stakes.now (lent_of store.old table.old work.old events.old) index.old rec.now).fed.table }
    ensures index_after { index.new ≡ (feed_indexed stakes.now (lent_of store.old table.old work.old events.old) index.old rec.now).index }
    ensures events_after { events.new ≡ (feed_indexed stakes.now (lent_of store.old table.old work.old events.old) index.old rec.now).fed.events }
{
    feed_refusals::record_refusal(stakes, store, order, table, work, events, rec)?;
    index_growth::grow(store, order, starts, index, rec)?;
    Ok(feed_single::accept(stakes, store, order, table, events, rec))
}
