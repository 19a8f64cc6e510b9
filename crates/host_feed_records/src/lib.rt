// Feeding many records, for a host: stakes, table and records as bytes, events and outcomes as words. A call answers one word: below 2^63 it is
// the answer, and 2^63 + n is refusal n (`encoded` in host_calls, specs/Calls).
#![tactic(auto)]

ghost use Rattle.std.specs.Prelude.{◌≡◌};
ghost use Rattle.feed_many.specs.Answers.{as_records_answer};
ghost use Rattle.host_calls.specs.Calls.{encoded};
ghost use Rattle.host_feed_records.specs.FeedRecords.{feed_records_of, feed_records_call};

use base::Refusal;

// Feeds records one after the other, each after its length in four bytes: their number. Each has its outcome, a word, and the events of the
// accepted ones stand at the front.
pub fn feed_records(
    stakes: &[u8],
    store: &mut [u8],
    table: &mut [u8],
    events: &mut [u64],
    outcomes: &mut [u64],
    records: &[u8],
) -> u64
    ensures value { result ≡ encoded (feed_records_call stakes.now store.old table.old events.old outcomes.old records.now).answer }
    ensures store_after { store.new ≡ (feed_records_call stakes.now store.old table.old events.old outcomes.old records.now).store }
    ensures table_after { table.new ≡ (feed_records_call stakes.now store.old table.old events.old outcomes.old records.now).table }
    ensures events_after { events.new ≡ (feed_records_call stakes.now store.old table.old events.old outcomes.old records.now).events }
    ensures outcomes_after { outcomes.new ≡ (feed_records_call stakes.now store.old table.old events.old outcomes.old records.now).outcomes }
{
    let mut held = [0u64; committee::MAX_MEMBERS];
    let n = host_calls::stakes_of(stakes, &mut held);
    match feed_records_of(&held[..n], store, table, events, outcomes, records) {
        Ok(count) => count,
        Err(refusal) => host_calls::refused(refusal),
    }
}

fn feed_records_of(
    stakes: &[u64],
    store: &mut [u8],
    table: &mut [u8],
    events: &mut [u64],
    outcomes: &mut [u64],
    records: &[u8],
) -> Result<u64, Refusal>
    ensures result_value { as_records_answer result ≡ (feed_records_of stakes.now store.old table.old events.old outcomes.old records.now).answer }
    ensures store_after { store.new ≡ (feed_records_of stakes.now store.old table.old events.old outcomes.old records.now).store }
    ensures table_after { table.new ≡ (feed_records_of stakes.now store.old table.old events.old outcomes.old records.now).table }
    ensures events_after { events.new ≡ (feed_records_of stakes.now store.old table.old events.old outcomes.old records.now).events }
    ensures outcomes_after { outcomes.new ≡ (feed_records_of stakes.now store.old table.old events.old outcomes.old records.now).outcomes }
{
    if table.len() != host_calls::TABLE_BYTES {
        return Err(host_locators::refusal_before(Refusal::TableNotInOrder, stakes, store));
    }
    let mut words = [0u64; host_calls::TABLE_WORDS];
    words::words_of(table, &mut words);
    let mut work = [0u64; host_calls::TABLE_WORDS];
    let answer = feed_many::feed_records(
        stakes, store, &mut words, &mut work, events, outcomes, records,
    );
    words::bytes_of(&words, table);
    answer
}
