// Events of one kind after another, and those of offsets with no item: late where the share is stored, else unknown. Follows committee.rs.
#![tactic(auto)]

ghost use Rattle.std.specs.Prelude.{◌≡◌, true, false, [], ◌∷◌, ◌+◌, ◌-◌, ◌*◌, ◌≤◌, length};
ghost use Rattle.std.proofs.lemmas.List.Edits.{sets};
ghost use Rattle.base.specs.Lists.{pick};
ghost use Rattle.record_spec.specs.Block.{is_share_at};
ghost use Rattle.record_spec.specs.Record.{well_formed, block_in};
ghost use Rattle.types.specs.Values.{as_reference};
ghost use Rattle.store_spec.specs.Layout.{position_of, lookup};
ghost use Rattle.store_spec.specs.Accept.{is_stored};
ghost use Rattle.store_spec.specs.Store.{records_of};
ghost use Rattle.store_spec.specs.Entry.{laid_out};
ghost use Rattle.pending_spec.specs.Table.{room};
ghost use Rattle.feed_spec.specs.ProcessBlock.{missed, words_of};
ghost use Rattle.feed_missed.specs.Kinds.{with_new, events_by};

use types::BlockReference;

// Writes one event, three words.
fn put_event(events: &mut [u64], n: usize, kind: u64, statement: u64, offset: u64)
    requires { 3 * n + 3 ≤ length events.old }
    ensures { events.new ≡ sets events.old (3 * n) (kind ∷ statement ∷ offset ∷ []) }
{
    let b = 3 * n;
    events[b] = kind;
    events[b + 1] = statement;
    events[b + 2] = offset;
}

// Writes an event of one kind for each offset in start..end, after the n that are there.
pub fn put_events(
    events: &mut [u64],
    n: usize,
    kind: u64,
    statement: u64,
    start: u64,
    end: u64,
) -> usize
    requires { (start ≤ end) × (3 * (n + (end - start)) ≤ length events.old) }
    ensures { (result ≡ n + (end - start)) × (events.new ≡ sets events.old (3 * n) (words_of (events_by (λ _. kind) statement start end))) }
{
    let mut k = n;
    for o in start..end {
        put_event(events, k, kind, statement, o);
        k += 1;
    }
    k
}

// The kind of event for an offset with no item.
fn missed_kind(share: bool) -> u64
    ensures { result ≡ pick share 2 3 }
{
    if share { 2 } else { 3 }
}

// Writes late or unknown for each offset in start..end of a record, walking its statements along.
fn missed_in(
    rec: &[u8],
    events: &mut [u64],
    n: usize,
    statement: u64,
    start: u64,
    end: u64,
) -> usize
    requires { (well_formed rec.now ≡ true) × (start ≤ end) × (3 * (n + (end - start)) ≤ length events.old) }
    ensures { (result ≡ n + (end - start)) × (events.new ≡ sets events.old (3 * n) (words_of (events_by (λ o. pick (is_share_at (block_in rec.now) o) 2 3) statement start end))) }
{
    let mut cursor = record_cursor::first_statement(rec);
    let mut k = n;
    for o in start..end {
        let found = pending_question::share_at(rec, cursor, o);
        cursor = found.cursor;
        put_event(events, k, missed_kind(found.share), statement, o);
        k += 1;
    }
    k
}

// Writes late or unknown for each offset in start..end of the voted block, which stands at p.
pub fn missed_events(
    store: &[u8],
    rec: &[u8],
    events: &mut [u64],
    n: usize,
    statement: u64,
    block: BlockReference,
    p: u64,
    start: u64,
    end: u64,
) -> usize
    requires stored { (laid_out store.now ≡ true) × (well_formed rec.now ≡ true) × (p ≡ position_of (lookup (with_new store.now rec.now) (as_reference block))) × (is_stored (records_of store.now) (block_in rec.now).reference ≡ false) }
    requires room { (start ≤ end) × (3 * (n + (end - start)) ≤ length events.old) }
    ensures { (result ≡ n + (end - start)) × (events.new ≡ sets events.old (3 * n) (words_of (events_by (missed (with_new store.now rec.now) (as_reference block)) statement start end))) }
{
    if p == 0 {
        return put_events(events, n, 3, statement, start, end);
    }
    let at = p as usize;
    if at == base::read_u32(store, 4) as usize {
        return missed_in(rec, events, n, statement, start, end);
    }
    let from = at + 8;
    let stop = store_entries::record_end(store, at);
    missed_in(&store[from..stop], events, n, statement, start, end)
}
