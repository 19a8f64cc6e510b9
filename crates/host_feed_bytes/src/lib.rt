// Feeding a record, with table and events as bytes.
#![tactic(auto)]

ghost use Rattle.std.specs.Prelude.{◌≡◌, true, [], ◌∷◌, ◌++◌, length};
ghost use Rattle.base.specs.Checks.{◌⇒◌, refusal};
ghost use Rattle.base.specs.Refusals.{refusal_number};
ghost use Rattle.words.specs.Words.{words_of, bytes_of};
ghost use Rattle.feed_single.specs.Answers.{as_feed_answer};
ghost use Rattle.feed_refusals.specs.Refusals.{early_checks};
ghost use Rattle.host_feed_bytes.specs.Feed.{fed_with, feed_of};
ghost use Rattle.host_feed_bytes.specs.Claims.{Claims};

use base::Refusal;

// 15 for events of another size, after 5, 10, 11, 20 to 30.
fn no_events(stakes: &[u64], store: &[u8], table: &[u64], rec: &[u8]) -> Refusal
    ensures { refusal_number result ≡ refusal (early_checks stakes.now store.now table.now rec.now ++ ((true ⇒ 15) ∷ [])) }
{
    if let Err(early) = feed_refusals::early_refusal(stakes, store, table, rec) {
        return early;
    }
    Refusal::EventsTooShort
}

// Feeds a record with the events as bytes and a work slice of its own.
fn feed_words(
    stakes: &[u64],
    store: &mut [u8],
    table: &mut [u64],
    events: &mut [u8],
    rec: &[u8],
) -> Result<u64, Refusal>
    requires { (length table.old ≡ 6145) × (length events.old ≡ 65536) }
    ensures result_value { as_feed_answer result ≡ (fed_with stakes.now store.old table.old (words_of events.old) rec.now).answer }
    ensures store_after { store.new ≡ (fed_with stakes.now store.old table.old (words_of events.old) rec.now).store }
    ensures table_after { table.new ≡ (fed_with stakes.now store.old table.old (words_of events.old) rec.now).table }
    ensures events_after { events.new ≡ bytes_of (fed_with stakes.now store.old table.old (words_of events.old) rec.now).events }
{
    let mut work = [0u64; host_calls::TABLE_WORDS];
    let mut words = [0u64; host_calls::EVENT_WORDS];
    words::words_of(events, &mut words);
    let answer = feed_single::feed(stakes, store, table, &mut work, &mut words, rec);
    words::bytes_of(&words, events);
    answer
}

pub fn feed_of(
    stakes: &[u64],
    store: &mut [u8],
    table: &mut [u8],
    events: &mut [u8],
    rec: &[u8],
) -> Result<u64, Refusal>
    ensures result_value { as_feed_answer result ≡ (feed_of stakes.now store.old table.old events.old rec.now).answer }
    ensures store_after { store.new ≡ (feed_of stakes.now store.old table.old events.old rec.now).store }
    ensures table_after { table.new ≡ (feed_of stakes.now store.old table.old events.old rec.now).table }
    ensures events_after { events.new ≡ (feed_of stakes.now store.old table.old events.old rec.now).events }
{
    if table.len() != host_calls::TABLE_BYTES {
        return Err(host_locators::refusal_before(Refusal::TableNotInOrder, stakes, store));
    }
    let mut words = [0u64; host_calls::TABLE_WORDS];
    words::words_of(table, &mut words);
    if events.len() != host_calls::EVENT_BYTES {
        return Err(no_events(stakes, store, &words, rec));
    }
    let answer = feed_words(stakes, store, &mut words, events, rec);
    words::bytes_of(&words, table);
    answer
}

// A refused feed keeps every byte.
pub fn claims()
    ensures { Claims }
{}
