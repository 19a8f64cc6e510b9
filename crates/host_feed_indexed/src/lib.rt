// Feeding a record with the index, for numbers, byte slices and an index of words. A call answers one word: below 2^63 it is the answer, and
// 2^63 + n is refusal n (`encoded` in host_calls, specs/Calls).
#![tactic(auto)]

ghost use Rattle.std.specs.Prelude.{◌≡◌, true, [], ◌∷◌, ◌++◌, length};
ghost use Rattle.base.specs.Checks.{◌⇒◌, refusal};
ghost use Rattle.base.specs.Refusals.{refusal_number};
ghost use Rattle.words.specs.Words.{words_of, bytes_of};
ghost use Rattle.feed_single.specs.Answers.{as_feed_answer};
ghost use Rattle.index_feed_refusals.specs.Refusals.{early_indexed_checks};
ghost use Rattle.host_calls.specs.Calls.{encoded};
ghost use Rattle.host_feed_indexed.specs.IndexedFeed.{fed_with, feed_indexed_of, feed_indexed_call};

use base::Refusal;

// Feeds a record: the number of events, which stand at the front, three words each. Its part is appended to the index.
pub fn feed_indexed(
    stakes: &[u8],
    store: &mut [u8],
    table: &mut [u8],
    index: &mut [u64],
    events: &mut [u8],
    rec: &[u8],
) -> u64
    ensures value { result ≡ encoded (feed_indexed_call stakes.now store.old table.old index.old events.old rec.now).answer }
    ensures store_after { store.new ≡ (feed_indexed_call stakes.now store.old table.old index.old events.old rec.now).store }
    ensures table_after { table.new ≡ (feed_indexed_call stakes.now store.old table.old index.old events.old rec.now).table }
    ensures index_after { index.new ≡ (feed_indexed_call stakes.now store.old table.old index.old events.old rec.now).index }
    ensures events_after { events.new ≡ (feed_indexed_call stakes.now store.old table.old index.old events.old rec.now).events }
{
    let mut held = [0u64; committee::MAX_MEMBERS];
    let n = host_calls::stakes_of(stakes, &mut held);
    match feed_of(&held[..n], store, table, index, events, rec) {
        Ok(count) => count,
        Err(refusal) => host_calls::refused(refusal),
    }
}

fn feed_of(
    stakes: &[u64],
    store: &mut [u8],
    table: &mut [u8],
    index: &mut [u64],
    events: &mut [u8],
    rec: &[u8],
) -> Result<u64, Refusal>
    ensures result_value { as_feed_answer result ≡ (feed_indexed_of stakes.now store.old table.old index.old events.old rec.now).answer }
    ensures store_after { store.new ≡ (feed_indexed_of stakes.now store.old table.old index.old events.old rec.now).store }
    ensures table_after { table.new ≡ (feed_indexed_of stakes.now store.old table.old index.old events.old rec.now).table }
    ensures index_after { index.new ≡ (feed_indexed_of stakes.now store.old table.old index.old events.old rec.now).index }
    ensures events_after { events.new ≡ (feed_indexed_of stakes.now store.old table.old index.old events.old rec.now).events }
{
    if table.len() != host_calls::TABLE_BYTES {
        return Err(host_locators::refusal_before(Refusal::TableNotInOrder, stakes, store));
    }
    let mut words = [0u64; host_calls::TABLE_WORDS];
    words::words_of(table, &mut words);
    if events.len() != host_calls::EVENT_BYTES {
        return Err(no_events(stakes, store, &words, index, rec));
    }
    let answer = feed_words(stakes, store, &mut words, index, events, rec);
    words::bytes_of(&words, table);
    answer
}

// Feeds a record with the events as bytes and a work slice of its own.
fn feed_words(
    stakes: &[u64],
    store: &mut [u8],
    table: &mut [u64],
    index: &mut [u64],
    events: &mut [u8],
    rec: &[u8],
) -> Result<u64, Refusal>
    requires { (length table.old ≡ 6145) × (length events.old ≡ 65536) }
    ensures result_value { as_feed_answer result ≡ (fed_with stakes.now store.old table.old index.old (words_of events.old) rec.now).fed.answer }
    ensures store_after { store.new ≡ (fed_with stakes.now store.old table.old index.old (words_of events.old) rec.now).fed.store }
    ensures table_after { table.new ≡ (fed_with stakes.now store.old table.old index.old (words_of events.old) rec.now).fed.table }
    ensures index_after { index.new ≡ (fed_with stakes.now store.old table.old index.old (words_of events.old) rec.now).index }
    ensures events_after { events.new ≡ bytes_of (fed_with stakes.now store.old table.old index.old (words_of events.old) rec.now).fed.events }
{
    let mut work = [0u64; host_calls::TABLE_WORDS];
    let mut words = [0u64; host_calls::EVENT_WORDS];
    words::words_of(events, &mut words);
    let answer = index_feed_single::feed_indexed(
        stakes, store, table, index, &mut work, &mut words, rec,
    );
    words::bytes_of(&words, events);
    answer
}

// 15 for events of another size, after 5, 10, 11, 54, 20 to 30.
fn no_events(stakes: &[u64], store: &[u8], table: &[u64], index: &[u64], rec: &[u8]) -> Refusal
    ensures { refusal_number result ≡ refusal (early_indexed_checks stakes.now store.now table.now index.now rec.now ++ ((true ⇒ 15) ∷ [])) }
{
    if let Err(early) = index_feed_refusals::early_refusal(stakes, store, table, index, rec) {
        return early;
    }
    Refusal::EventsTooShort
}
