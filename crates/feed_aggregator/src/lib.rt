// A record's shares registered and its votes counted on a lent table. Follows committee.rs (`TransactionAggregator`).
#![tactic(auto)]

ghost use Rattle.std.specs.Prelude.{◌≡◌, true, false, length, ◌≤◌};
ghost use mathlib.Core.List.{map, flatten};
ghost use Rattle.base.specs.Checks.{passes};
ghost use Rattle.record_spec.specs.Block.{author, shared_ranges, event_room};
ghost use Rattle.record_spec.specs.Record.{block_in, well_formed};
ghost use Rattle.record_spec.specs.Verify.{statement_checks};
ghost use Rattle.store_spec.specs.Store.{records_of};
ghost use Rattle.store_spec.specs.Entry.{sorted_positions};
ghost use Rattle.pending_spec.specs.Items.{register};
ghost use Rattle.pending_spec.specs.Table.{items_of, HoldsItems};
ghost use Rattle.feed_spec.specs.ProcessBlock.{votes, process_block};
ghost use Rattle.feed_missed.specs.Kinds.{with_new};
ghost use Rattle.feed_counted_vote.specs.Vote.{starting_with, VotesCounted, Voting};
ghost use Rattle.feed_aggregator.specs.Step.{Registered, Orderly, Feeding};
ghost use Rattle.committee.specs.Committee.{broken, known};

use committee::Stake;
use feed_counted_vote::Processed;

// The votes of a record's statements, one after the other.
fn count_votes(
    stakes: &[u64],
    total: Stake,
    store: &[u8],
    order: &[u64],
    rec: &[u8],
    table: &mut [u64],
    events: &mut [u64],
    telling: bool,
) -> Processed
    requires lent { Voting stakes.now store.now rec.now table.old total.0 }
    requires checked { passes (flatten (map statement_checks (block_in rec.now).statements)) ≡ true }
    requires room { telling ≡ true → event_room (block_in rec.now) ≤ length events.old }
    requires order { order.now ≡ sorted_positions (records_of store.now) }
    ensures { VotesCounted (votes stakes.now (with_new store.now rec.now) (author (block_in rec.now)) 0 (block_in rec.now).statements (starting_with (items_of table.old))) telling 0 table.old events.old result table.new events.new }
{
    let count = record_reader::statement_count(rec);
    let mut cursor = record_cursor::first_statement(rec);
    let mut n = 0;
    while cursor.index < count {
        let found = record_cursor::next_statement(rec, cursor);
        let statement = found.statement;
        let step = feed_counted_vote::vote_statement(
            stakes,
            total,
            store,
            order,
            rec,
            table,
            events,
            n,
            cursor.index as u64,
            statement,
            telling,
        );
        if !step.fits {
            return step;
        }
        n = step.events;
        cursor = found.next;
    }
    Processed {
        fits: true,
        events: n,
    }
}

// An item for each run of the record's shares, which stands at p; whether they fit the table (14).
fn register_shares(stakes: &[u64], rec: &[u8], table: &mut [u64], p: u64) -> bool
    requires committee { (broken stakes.now ≡ false) × (known stakes.now (author (block_in rec.now)) ≡ true) }
    requires formed { well_formed rec.now ≡ true }
    requires table { HoldsItems table.old × Orderly (register stakes.now (author (block_in rec.now)) p (shared_ranges (block_in rec.now)) (items_of table.old)) }
    ensures { Registered (register stakes.now (author (block_in rec.now)) p (shared_ranges (block_in rec.now)) (items_of table.old)) table.old result table.new }
{
    let reference = record_reader::reference(rec);
    let author = reference.authority;
    let mut cursor = record_cursor::first_statement(rec);
    loop {
        let Some(run) = record_shared_ranges::next_shared_range(rec, cursor) else {
            return true;
        };
        if pending_words::room_of(table) <= pending_words::item_count(table) {
            return false;
        }
        pending_range_map::register(stakes, table, author, p, run.start, run.end);
        cursor = run.next;
    }
}

// What a record's shares and votes do to the table, and the events, if they are told. Whether the items fit the table (14).
pub fn process_block(
    stakes: &[u64],
    store: &[u8],
    order: &[u64],
    rec: &[u8],
    table: &mut [u64],
    events: &mut [u64],
    telling: bool,
) -> Processed
    requires lent { Feeding stakes.now store.now rec.now table.old }
    requires room { telling ≡ true → event_room (block_in rec.now) ≤ length events.old }
    requires order { order.now ≡ sorted_positions (records_of store.now) }
    ensures { VotesCounted (process_block stakes.now (with_new store.now rec.now) (block_in rec.now) (items_of table.old)) telling 0 table.old events.old result table.new events.new }
{
    let Ok(total) = committee::new_committee(stakes) else {
        // Never so: the committee was checked.
        return Processed {
            fits: false,
            events: 0,
        };
    };
    let p = base::read_u32(store, 4) as u64;
    if !register_shares(stakes, rec, table, p) {
        return Processed {
            fits: false,
            events: 0,
        };
    }
    count_votes(stakes, total, store, order, rec, table, events, telling)
}
