// Feeding many records with one call and the index beside the store: memory and index are checked once, and part after part is appended.
#![tactic(auto)]

ghost use Rattle.std.specs.Prelude.{◌≡◌, ◌≤◌, length};
ghost use Rattle.feed_spec.specs.Feed.{lent_of};
ghost use Rattle.feed_frames.specs.Frames.{records_in};
ghost use Rattle.feed_many.specs.Answers.{as_records_answer};
ghost use Rattle.index_feed_spec.specs.IndexedFeed.{feed_indexed};
ghost use Rattle.index_feed_many.specs.Records.{feed_all_indexed, feed_records_indexed};
ghost use Rattle.index_feed_many.specs.Step.{ReadyIndexed, FedNextIndexed, FedEachIndexed};
ghost use Rattle.index_feed_many.specs.Claims.{Claims};

use base::Refusal;
use feed_many::Told;

// Feeds a record to memory in order with an index that agrees, and keeps up where the parts stand.
fn feed_next(
    stakes: &[u64],
    store: &mut [u8],
    order: &mut [u64],
    starts: &mut [u64],
    table: &mut [u64],
    index: &mut [u64],
    work: &mut [u64],
    events: &mut [u64],
    rec: &[u8],
) -> Told
    requires { ReadyIndexed stakes.now store.old table.old index.old work.old order.old starts.old }
    ensures told { FedNextIndexed (feed_indexed stakes.now (lent_of store.old table.old work.old events.old) index.old rec.now) result store.new table.new index.new events.new }
    ensures ready { ReadyIndexed stakes.now store.new table.new index.new work.old order.new starts.new }
{
    let count = base::read_u16(store, 8) as usize;
    let at = base::read_u32(store, 4) as u64;
    let part = index[0];
    let answer = index_feed_single::feed_agreed(
        stakes,
        store,
        &order[..count],
        starts,
        table,
        index,
        work,
        events,
        rec,
    );
    match answer {
        Ok(n) => {
            index_part_places::note_block(store, order, starts, at, part);
            Told {
                outcome: n,
                words: 3 * (n as usize),
            }
        }
        Err(refusal) => Told {
            outcome: feed_many::REFUSED + refusal.number(),
            words: 0,
        },
    }
}

// Feeds every record, each with the rest of the events: how many there are.
fn feed_each(
    stakes: &[u64],
    store: &mut [u8],
    order: &mut [u64],
    starts: &mut [u64],
    table: &mut [u64],
    index: &mut [u64],
    work: &mut [u64],
    events: &mut [u64],
    outcomes: &mut [u64],
    records: &[u8],
) -> usize
    requires ready { ReadyIndexed stakes.now store.old table.old index.old work.old order.old starts.old }
    requires room { length (records_in records.now) ≤ length outcomes.old }
    ensures { FedEachIndexed (feed_all_indexed stakes.now (lent_of store.old table.old work.old events.old) index.old (records_in records.now)) outcomes.old result store.new table.new index.new events.new outcomes.new }
{
    let mut at: usize = 0;
    let mut used: usize = 0;
    let mut k: usize = 0;
    while at < records.len() {
        let next = feed_frames::next_record(records, at);
        let start = next.start;
        let end = next.end;
        let told = feed_next(
            stakes,
            store,
            order,
            starts,
            table,
            index,
            work,
            &mut events[used..],
            &records[start..end],
        );
        outcomes[k] = told.outcome;
        used += told.words;
        k += 1;
        at = end;
    }
    k
}

// Feeds records one after the other, each after its length in four bytes, with the index. A refusal of the call writes nothing but the work slice;
// else each record has its outcome, the events of the accepted ones stand at the front, and their parts at the end of the used index.
pub fn feed_records_indexed(
    stakes: &[u64],
    store: &mut [u8],
    table: &mut [u64],
    index: &mut [u64],
    work: &mut [u64],
    events: &mut [u64],
    outcomes: &mut [u64],
    records: &[u8],
) -> Result<u64, Refusal>
    ensures result_value { as_records_answer result ≡ (feed_records_indexed stakes.now (lent_of store.old table.old work.old events.old) index.old outcomes.old records.now).answer }
    ensures store_after { store.new ≡ (feed_records_indexed stakes.now (lent_of store.old table.old work.old events.old) index.old outcomes.old records.now).store }
    ensures table_after { table.new ≡ (feed_records_indexed stakes.now (lent_of store.old table.old work.old events.old) index.old outcomes.old records.now).table }
    ensures index_after { index.new ≡ (feed_records_indexed stakes.now (lent_of store.old table.old work.old events.old) index.old outcomes.old records.now).index }
    ensures events_after { events.new ≡ (feed_records_indexed stakes.now (lent_of store.old table.old work.old events.old) index.old outcomes.old records.now).events }
    ensures outcomes_after { outcomes.new ≡ (feed_records_indexed stakes.now (lent_of store.old table.old work.old events.old) index.old outcomes.old records.now).outcomes }
{
    let mut order = [0u64; types::MAX_BLOCKS];
    let mut starts = [0u64; types::MAX_BLOCKS];
    index_feed_refusals::lent_refusal(stakes, store, table, index, &mut order, &mut starts)?;
    if work.len() < table.len() {
        return Err(Refusal::WorkTooShort);
    }
    if outcomes.len() < feed_frames::record_count(records) {
        return Err(Refusal::OutcomesTooShort);
    }
    let n = feed_each(
        stakes,
        store,
        &mut order,
        &mut starts,
        table,
        index,
        work,
        events,
        outcomes,
        records,
    );
    Ok(n as u64)
}

// What the call means beside other calls.
pub fn claims()
    ensures { Claims }
{}
