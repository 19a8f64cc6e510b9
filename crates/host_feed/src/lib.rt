// Feeding a record, for numbers and byte slices. A call answers one word: below 2^63 it is the answer, and
// 2^63 + n is refusal n (`encoded` in host_calls, specs/Calls).
#![tactic(auto)]

ghost use Rattle.std.specs.Prelude.{◌≡◌};
ghost use Rattle.host_calls.specs.Calls.{encoded};
ghost use Rattle.host_feed_bytes.specs.Feed.{feed_call};

// Feeds a record: the number of events, which stand at the front, three words each.
pub fn feed(stakes: &[u8], store: &mut [u8], table: &mut [u8], events: &mut [u8], rec: &[u8]) -> u64
    ensures value { result ≡ encoded (feed_call stakes.now store.old table.old events.old rec.now).answer }
    ensures store_after { store.new ≡ (feed_call stakes.now store.old table.old events.old rec.now).store }
    ensures table_after { table.new ≡ (feed_call stakes.now store.old table.old events.old rec.now).table }
    ensures events_after { events.new ≡ (feed_call stakes.now store.old table.old events.old rec.now).events }
{
    let mut held = [0u64; committee::MAX_MEMBERS];
    let n = host_calls::stakes_of(stakes, &mut held);
    match host_feed_bytes::feed_of(&held[..n], store, table, events, rec) {
        Ok(count) => count,
        Err(refusal) => host_calls::refused(refusal),
    }
}
