// Feeding many records with one call: the lent memory is checked once. Follows committee.rs (`TransactionAggregator`) and block_store.rs.
#![tactic(auto)]

ghost use Rattle.std.specs.Prelude.{◌≡◌, ◌≤◌, ◌<◌, length};
ghost use Rattle.feed_spec.specs.Feed.{feed, lent_of};
ghost use Rattle.feed_frames.specs.Frames.{records_in};
ghost use Rattle.feed_many.specs.Records.{feed_all, feed_records};
ghost use Rattle.feed_many.specs.Answers.{as_records_answer};
ghost use Rattle.feed_many.specs.Step.{Ready, FedNext, FedEach};

use base::Refusal;

// The outcome of a refused record is this with the refusal's number.
pub const REFUSED: u64 = 0x8000_0000_0000_0000;

// What is told of a record: its outcome, and how many words its events take.
#[derive(Clone, Copy)]
pub struct Told {
    pub outcome: u64,
    pub words: usize,
}

// Feeds a record to memory in order.
fn feed_next(
    stakes: &[u64],
    store: &mut [u8],
    table: &mut [u64],
    work: &mut [u64],
    events: &mut [u64],
    rec: &[u8],
) -> Told
    requires { Ready stakes.now store.old table.old work.old }
    ensures { FedNext (feed stakes.now (lent_of store.old table.old work.old events.old) rec.now) result store.new table.new events.new }
{
    let answer = feed_single::feed_in_order(stakes, store, table, work, events, rec);
    match answer {
        Ok(n) => Told {
            outcome: n,
            words: 3 * (n as usize),
        },
        Err(refusal) => Told {
            outcome: REFUSED + refusal.number(),
            words: 0,
        },
    }
}

// Feeds every record to memory in order, each with the rest of the events: how many there are.
fn feed_each(
    stakes: &[u64],
    store: &mut [u8],
    table: &mut [u64],
    work: &mut [u64],
    events: &mut [u64],
    outcomes: &mut [u64],
    records: &[u8],
) -> usize
    requires { Ready stakes.now store.old table.old work.old × (length (records_in records.now) ≤ length outcomes.old) }
    ensures { FedEach (feed_all stakes.now (lent_of store.old table.old work.old events.old) (records_in records.now)) outcomes.old result store.new table.new events.new outcomes.new }
{
    let mut at: usize = 0;
    let mut used: usize = 0;
    let mut k: usize = 0;
    while at < records.len() {
        let next = feed_frames::next_record(records, at);
        let start = next.start;
        let end = next.end;
        let told = feed_next(
            stakes,
            store,
            table,
            work,
            &mut events[used..],
            &records[start..end],
        );
        outcomes[k] = told.outcome;
        used += told.words;
        k += 1;
        at = end;
    }
    k
}

// Feeds records one after the other, each after its length in four bytes. A refusal of the call writes nothing but the work slice; else each
// record has its outcome, the events of the accepted ones stand at the front, and the answer is how many records there are.
pub fn feed_records(
    stakes: &[u64],
    store: &mut [u8],
    table: &mut [u64],
    work: &mut [u64],
    events: &mut [u64],
    outcomes: &mut [u64],
    records: &[u8],
) -> Result<u64, Refusal>
    ensures result_value { as_records_answer result ≡ (feed_records stakes.now (lent_of store.old table.old work.old events.old) outcomes.old records.now).answer }
    ensures store_after { store.new ≡ (feed_records stakes.now (lent_of store.old table.old work.old events.old) outcomes.old records.now).store }
    ensures table_after { table.new ≡ (feed_records stakes.now (lent_of store.old table.old work.old events.old) outcomes.old records.now).table }
    ensures events_after { events.new ≡ (feed_records stakes.now (lent_of store.old table.old work.old events.old) outcomes.old records.now).events }
    ensures outcomes_after { outcomes.new ≡ (feed_records stakes.now (lent_of store.old table.old work.old events.old) outcomes.old records.now).outcomes }
{
    pending_question::lent_refusal(stakes, store, table)?;
    if work.len() < table.len() {
        return Err(Refusal::WorkTooShort);
    }
    if outcomes.len() < feed_frames::record_count(records) {
        return Err(Refusal::OutcomesTooShort);
    }
    let n = feed_each(stakes, store, table, work, events, outcomes, records);
    Ok(n as u64)
}
