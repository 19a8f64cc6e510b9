// The events of a vote, written one after the other. Follows committee.rs.
#![tactic(auto)]

ghost use Rattle.std.specs.Prelude.{◌≡◌, true, false, ◌+◌, ◌-◌, ◌*◌, ◌≤◌, length};
ghost use Rattle.record_spec.specs.Record.{well_formed, block_in};
ghost use Rattle.types.specs.Values.{as_reference};
ghost use Rattle.store_spec.specs.Layout.{position_of, lookup};
ghost use Rattle.store_spec.specs.Accept.{is_stored};
ghost use Rattle.store_spec.specs.Store.{records_of};
ghost use Rattle.store_spec.specs.Entry.{laid_out, sorted_positions};
ghost use Rattle.pending_spec.specs.Table.{items_of, HoldsItems, room};
ghost use Rattle.feed_events.specs.Step.{events_between, StatedAt, SameItem};
ghost use Rattle.feed_missed.specs.Kinds.{with_new};
ghost use Rattle.pending_spec.specs.Items.{item_holds};
ghost use Rattle.pending_search.specs.Answers.{FoundBy};

use committee::Stake;
use std::cmp::Ordering;
use types::BlockReference;

// Where the voted block stands: the record being fed counts as stored, after all others. Zero: the block is not stored.
pub fn voted_position(store: &[u8], order: &[u64], rec: &[u8], block: BlockReference) -> u64
    requires { (laid_out store.now ≡ true) × (well_formed rec.now ≡ true) × (order.now ≡ sorted_positions (records_of store.now)) }
    ensures { result ≡ position_of (lookup (with_new store.now rec.now) (as_reference block)) }
{
    let compared = types::compare(record_reader::reference(rec), block);
    match compared {
        Ordering::Equal => base::read_u32(store, 4) as u64,
        Ordering::Less => store_entries::find_ordered(store, order, block) as u64,
        Ordering::Greater => store_entries::find_ordered(store, order, block) as u64,
    }
}

// Writes the events for start..end of the voted block, in which the same item stands at each offset, or none.
fn stretch_events(
    total: Stake,
    store: &[u8],
    rec: &[u8],
    table: &[u64],
    events: &mut [u64],
    n: usize,
    statement: u64,
    block: BlockReference,
    p: u64,
    found: Option<usize>,
    start: u64,
    end: u64,
) -> usize
    requires stored { (laid_out store.now ≡ true) × (well_formed rec.now ≡ true) × (p ≡ position_of (lookup (with_new store.now rec.now) (as_reference block))) × (is_stored (records_of store.now) (block_in rec.now).reference ≡ false) }
    requires table { HoldsItems table.now × FoundBy (item_holds p start) (items_of table.now) found × SameItem (items_of table.now) p start end }
    requires room { (start ≤ end) × (3 * (n + (end - start)) ≤ length events.old) }
    ensures { StatedAt n (events_between total.0 (with_new store.now rec.now) (as_reference block) statement (items_of table.now) p start end) events.old result events.new }
{
    let Some(i) = found else {
        return feed_missed::missed_events(store, rec, events, n, statement, block, p, start, end);
    };
    let x = pending_words::item_at(table, i);
    let votes = x.aggregator;
    if !committee::is_quorum(total, votes.stake) {
        return n;
    }
    feed_missed::put_events(events, n, 1, statement, start, end)
}

// Writes the events of a vote over start..end of the voted block, once it is counted. Items are passed as a whole.
pub fn announce(
    total: Stake,
    store: &[u8],
    rec: &[u8],
    table: &[u64],
    events: &mut [u64],
    n: usize,
    statement: u64,
    block: BlockReference,
    p: u64,
    start: u64,
    end: u64,
) -> usize
    requires stored { (laid_out store.now ≡ true) × (well_formed rec.now ≡ true) × (p ≡ position_of (lookup (with_new store.now rec.now) (as_reference block))) × (is_stored (records_of store.now) (block_in rec.now).reference ≡ false) }
    requires table { HoldsItems table.now }
    requires room { 3 * (n + (end - start)) ≤ length events.old }
    ensures { StatedAt n (events_between total.0 (with_new store.now rec.now) (as_reference block) statement (items_of table.now) p start end) events.old result events.new }
{
    let mut k = n;
    let mut o = start;
    while o < end {
        let stretch = pending_search::stretch_at(table, p, o, end);
        let found = stretch.found;
        k = stretch_events(
            total,
            store,
            rec,
            table,
            events,
            k,
            statement,
            block,
            p,
            found,
            o,
            stretch.end,
        );
        o = stretch.end;
    }
    k
}
