// What the block of a stored record votes for, what it rejects, or its shares, as rows in a lent table: the position of a reference in the store, the start and
// the end, which is excluded. The rows ascend, and none overlaps or touches another of the same reference.
#![tactic(auto)]

ghost use Rattle.std.specs.Prelude.{◌+◌, ◌*◌, ◌≤◌, ◌<◌, length};
ghost use Rattle.record_spec.specs.Record.{block_in};
ghost use Rattle.list_block_spans.specs.Answers.{voted_by};
ghost use Rattle.types.specs.Values.{as_maybe};
ghost use Rattle.list_own_ranges.specs.Own.{Recorded, Roomy, OwnRanges};
ghost use Rattle.list_own_ranges.specs.Step.{RangePut, Written};

use list_kind_ranges::RangeKind;
use types::{TransactionLocator, TransactionLocatorRange};

// Puts a range after the first n rows of a table, if there is one and it is in reach.
fn put_range(
    rows: &mut [u64],
    n: usize,
    at: usize,
    vote: Option<TransactionLocatorRange>,
    last: Option<TransactionLocator>,
    bound: Option<TransactionLocator>,
) -> usize
    requires { 3 * n + 3 ≤ length rows.old }
    ensures { RangePut (as_maybe last) (as_maybe bound) at (voted_by vote) rows.old rows.new n result }
{
    let Some(range) = vote else {
        return n;
    };
    if !list_reach::in_reach(last, bound, range) {
        return n;
    }
    let start = range.offset_start_inclusive;
    let end = range.offset_end_exclusive;
    list_range_rows::put_row(rows, n, at as u64, start, end);
    n + 1
}

// Writes the ranges of a kind of the block of a record that are in reach, statement by statement.
fn write_ranges(
    store: &[u8],
    start: usize,
    rec: &[u8],
    kind: RangeKind,
    last: Option<TransactionLocator>,
    bound: Option<TransactionLocator>,
    rows: &mut [u64],
) -> usize
    requires { Recorded store.now start rec.now × Roomy (block_in rec.now) rows.old }
    ensures { Written kind (as_maybe last) (as_maybe bound) store.now (block_in rec.now) rows.old rows.new result (length (block_in rec.now).statements) }
{
    let count = record_reader::statement_count(rec);
    let block = record_reader::reference(rec);
    let mut cursor = record_cursor::first_statement(rec);
    let mut n: usize = 0;
    while cursor.index < count {
        let found = list_kind_ranges::next_range(rec, block, cursor, kind);
        let vote = found.vote;
        n = put_range(rows, n, start + found.at, vote, last, bound);
        cursor = found.next;
    }
    n
}

// Writes the ranges of a kind of the block of a record, which stands at a position of the store, as far as they matter from the last locator on up to the
// bound: the number of rows. As many spare words as the table has for them hold anything afterwards.
pub fn own_ranges(
    store: &[u8],
    start: usize,
    rec: &[u8],
    kind: RangeKind,
    last: Option<TransactionLocator>,
    bound: Option<TransactionLocator>,
    rows: &mut [u64],
    spare: &mut [u64],
) -> usize
    requires { Recorded store.now start rec.now × (Roomy (block_in rec.now) rows.old × Roomy (block_in rec.now) spare.old) }
    ensures { OwnRanges kind (as_maybe last) (as_maybe bound) store.now (block_in rec.now) rows.old rows.new result }
{
    let n = write_ranges(store, start, rec, kind, last, bound, rows);
    list_row_sort::sort_rows(store, rows, spare, n);
    list_range_rows::join_rows(store, rows, n)
}
