// One vote counted on a lent table: the cuts, the vote, its events, and items with quorum leave. Follows committee.rs (`TransactionAggregator`).
#![tactic(auto)]

ghost use Rattle.std.specs.Prelude.{◌≡◌, true, false, [], length, ◌+◌, ◌-◌, ◌*◌, ◌≤◌};
ghost use Rattle.std.proofs.Math.Option.{some};
ghost use Rattle.base.specs.Checks.{passes};
ghost use Rattle.record_spec.specs.Block.{author, voted_range, counted_offsets};
ghost use Rattle.record_spec.specs.Record.{block_in, well_formed};
ghost use Rattle.types.specs.Values.{as_reference, as_range};
ghost use Rattle.record_statement.specs.Values.{as_statement};
ghost use Rattle.record_spec.specs.Verify.{statement_checks};
ghost use Rattle.pending_spec.specs.Table.{items_of, HoldsItems};
ghost use Rattle.feed_spec.specs.ProcessBlock.{vote};
ghost use Rattle.feed_events.specs.Step.{events_between, StatedAt, told};
ghost use Rattle.feed_missed.specs.Kinds.{with_new};
ghost use Rattle.feed_counted_vote.specs.Vote.{starting_with, VotesCounted, Voting};
ghost use Rattle.store_spec.specs.Layout.{position_of, lookup};
ghost use Rattle.store_spec.specs.Accept.{is_stored};
ghost use Rattle.store_spec.specs.Store.{records_of};
ghost use Rattle.store_spec.specs.Entry.{laid_out, sorted_positions};

use committee::Stake;
use record_statement::BaseStatement;
use types::{BlockReference, TransactionLocatorRange};

// Whether the items fit the table (14), and the number of events that are written then.
#[derive(Clone, Copy)]
pub struct Processed {
    pub fits: bool,
    pub events: usize,
}

// The events of a vote, unless it is only tried.
fn announced(
    total: Stake,
    store: &[u8],
    rec: &[u8],
    table: &[u64],
    events: &mut [u64],
    n: usize,
    statement: u64,
    block: BlockReference,
    p: u64,
    start: u64,
    end: u64,
    telling: bool,
) -> usize
    requires stored { (laid_out store.now ≡ true) × (well_formed rec.now ≡ true) × (p ≡ position_of (lookup (with_new store.now rec.now) (as_reference block))) × (is_stored (records_of store.now) (block_in rec.now).reference ≡ false) }
    requires table { HoldsItems table.now }
    requires room { telling ≡ true → 3 * (n + (end - start)) ≤ length events.old }
    ensures { StatedAt n (told telling (events_between total.0 (with_new store.now rec.now) (as_reference block) statement (items_of table.now) p start end)) events.old result events.new }
{
    if !telling {
        return n;
    }
    feed_events::announce(
        total, store, rec, table, events, n, statement, block, p, start, end,
    )
}

// A vote of the record's author over a range: both cuts, which have to fit the table (14), the vote, the events; then items with quorum leave.
fn vote(
    stakes: &[u64],
    total: Stake,
    store: &[u8],
    order: &[u64],
    rec: &[u8],
    table: &mut [u64],
    events: &mut [u64],
    n: usize,
    statement: u64,
    range: TransactionLocatorRange,
    telling: bool,
) -> Processed
    requires lent { Voting stakes.now store.now rec.now table.old total.0 }
    requires room { telling ≡ true → 3 * (n + (range.offset_end_exclusive - range.offset_start_inclusive)) ≤ length events.old }
    requires order { order.now ≡ sorted_positions (records_of store.now) }
    ensures { VotesCounted (vote stakes.now (with_new store.now rec.now) (author (block_in rec.now)) statement (some (as_range range)) (starting_with (items_of table.old))) telling n table.old events.old result table.new events.new }
{
    let block = range.block;
    let start = range.offset_start_inclusive;
    let end = range.offset_end_exclusive;
    let p = feed_events::voted_position(store, order, rec, block);
    if pending_words::room_of(table) < pending_cuts::count_after_cuts(table, p, start, end) {
        return Processed {
            fits: false,
            events: n,
        };
    }
    let reference = record_reader::reference(rec);
    let author = reference.authority;
    pending_votes::vote_over(stakes, table, author, p, start, end);
    let k = announced(
        total, store, rec, table, events, n, statement, block, p, start, end, telling,
    );
    pending_range_map::leave(total, table, p, start, end);
    Processed {
        fits: true,
        events: k,
    }
}

// The vote of a statement, if it is one.
pub fn vote_statement(
    stakes: &[u64],
    total: Stake,
    store: &[u8],
    order: &[u64],
    rec: &[u8],
    table: &mut [u64],
    events: &mut [u64],
    n: usize,
    index: u64,
    statement: BaseStatement,
    telling: bool,
) -> Processed
    requires lent { Voting stakes.now store.now rec.now table.old total.0 }
    requires checked { passes (statement_checks (as_statement [] statement)) ≡ true }
    requires room { telling ≡ true → 3 * (n + counted_offsets (voted_range (as_statement rec.now statement))) ≤ length events.old }
    requires order { order.now ≡ sorted_positions (records_of store.now) }
    ensures { VotesCounted (vote stakes.now (with_new store.now rec.now) (author (block_in rec.now)) index (voted_range (as_statement rec.now statement)) (starting_with (items_of table.old))) telling n table.old events.old result table.new events.new }
{
    let Some(range) = record_statement_votes::voted_range(statement) else {
        return Processed {
            fits: true,
            events: n,
        };
    };
    vote(
        stakes, total, store, order, rec, table, events, n, index, range, telling,
    )
}
