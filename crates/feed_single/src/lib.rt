// Feeding a record: one call over the committee and all lent memory. Follows committee.rs (`TransactionAggregator`) and block_store.rs.
#![tactic(auto)]

ghost use Rattle.std.specs.Prelude.{◌≡◌, true, []};
ghost use Rattle.base.specs.Checks.{refusal};
ghost use Rattle.store_spec.specs.Store.{records_of, record_in};
ghost use Rattle.store_spec.specs.Entry.{laid_out, sorted_positions};
ghost use Rattle.feed_spec.specs.Pending.{pending_checks};
ghost use Rattle.feed_spec.specs.Feed.{feed, accepted_feed, lent_of};
ghost use Rattle.feed_single.specs.Answers.{as_feed_answer};
ghost use Rattle.feed_refusals.specs.Step.{Accepting};
ghost use Rattle.feed_single.specs.Accepted.{AcceptedAs};

use base::Refusal;

// Feeds a record. A refusal writes nothing but the work slice; else the record is stored and counted, its events stand at the
// front, and the answer is how many they are.
pub fn feed(
    stakes: &[u64],
    store: &mut [u8],
    table: &mut [u64],
    work: &mut [u64],
    events: &mut [u64],
    rec: &[u8],
) -> Result<u64, Refusal>
    ensures result_value { as_feed_answer result ≡ (feed stakes.now (lent_of store.old table.old work.old events.old) rec.now).answer }
    ensures store_after { store.new ≡ (feed stakes.now (lent_of store.old table.old work.old events.old) rec.now).store }
    ensures table_after { table.new ≡ (feed stakes.now (lent_of store.old table.old work.old events.old) rec.now).table }
    ensures events_after { events.new ≡ (feed stakes.now (lent_of store.old table.old work.old events.old) rec.now).events }
{
    pending_question::lent_refusal(stakes, store, table)?;
    feed_in_order(stakes, store, table, work, events, rec)
}

// Feeds a record to a store and a table in order: its blocks are found by halving among their sorted positions.
pub fn feed_in_order(
    stakes: &[u64],
    store: &mut [u8],
    table: &mut [u64],
    work: &mut [u64],
    events: &mut [u64],
    rec: &[u8],
) -> Result<u64, Refusal>
    requires { (refusal (pending_checks stakes.now store.old table.old) ≡ 0) × (laid_out store.old ≡ true) }
    ensures result_value { as_feed_answer result ≡ (feed stakes.now (lent_of store.old table.old work.old events.old) rec.now).answer }
    ensures store_after { store.new ≡ (feed stakes.now (lent_of store.old table.old work.old events.old) rec.now).store }
    ensures table_after { table.new ≡ (feed stakes.now (lent_of store.old table.old work.old events.old) rec.now).table }
    ensures events_after { events.new ≡ (feed stakes.now (lent_of store.old table.old work.old events.old) rec.now).events }
{
    let mut order = [0u64; types::MAX_BLOCKS];
    let count = final_block_votes::sorted_positions(store, &mut order);
    feed_refusals::record_refusal(stakes, store, &order[..count], table, work, events, rec)?;
    Ok(accept(stakes, store, &order[..count], table, events, rec))
}

// Counts and stores a record that no refusal applies to: the number of events.
pub fn accept(
    stakes: &[u64],
    store: &mut [u8],
    order: &[u64],
    table: &mut [u64],
    events: &mut [u64],
    rec: &[u8],
) -> u64
    requires accepting { Accepting stakes.now store.old table.old events.old rec.now }
    requires order { order.now ≡ sorted_positions (records_of store.old) }
    ensures { AcceptedAs (accepted_feed stakes.now (lent_of store.old table.old [] events.old) (record_in rec.now)) result store.new table.new events.new }
{
    let done = feed_aggregator::process_block(stakes, store, order, rec, table, events, true);
    store_append::append(store, order, rec);
    done.events as u64
}
