// The edges of the ranges of one block, put after those of others in a table as far as they are in a window of locators.
#![tactic(auto)]

ghost use Rattle.std.specs.Prelude.{◌+◌, ◌*◌, ◌≤◌, ◌<◌, length};
ghost use Rattle.record_spec.specs.Record.{block_in};
ghost use Rattle.types.specs.Values.{as_maybe};
ghost use Rattle.list_range_rows.specs.Ranges.{new_row};
ghost use Rattle.list_own_ranges.specs.Own.{Recorded};
ghost use Rattle.list_lanes.specs.Lanes.{lane_kind};
ghost use Rattle.list_block_edges.specs.Taken.{Takeable, EdgesTaken, EdgePut, BlockTaken};

use list_cuts::Window;
use types::TransactionLocator;

// Puts an edge after the first n rows of a table, if it is after the last locator and not after the bound.
fn put_edge(
    store: &[u8],
    at: u64,
    offset: u64,
    mark: u64,
    last: Option<TransactionLocator>,
    bound: Option<TransactionLocator>,
    edges: &mut [u64],
    n: usize,
) -> usize
    requires { (at + 48 ≤ length store.now) × (3 * n + 3 ≤ length edges.old) }
    ensures { EdgePut store.now (as_maybe last) (as_maybe bound) (new_row at offset mark) edges.old edges.new n result }
{
    if !list_order::follows(store, at as usize, offset, last) {
        return n;
    }
    if list_order::is_after_best(store, at as usize, offset, bound) {
        return n;
    }
    list_range_rows::put_row(edges, n, at, offset, mark);
    n + 1
}

// Puts those edges of the first m rows, which are ranges of the block at a place, after the first n rows of another table that are after the last
// locator and not after the bound.
fn take_edges(
    store: &[u8],
    rows: &[u64],
    m: usize,
    place: usize,
    last: Option<TransactionLocator>,
    bound: Option<TransactionLocator>,
    edges: &mut [u64],
    n: usize,
) -> usize
    requires { Takeable store.now rows.now edges.old m place n }
    ensures { EdgesTaken store.now (as_maybe last) (as_maybe bound) rows.now edges.old edges.new m place n result }
{
    let mark = 2 * (place as u64);
    let mut k = n;
    for i in 0..m {
        let from = list_row_sort::ROW_WORDS * i;
        let at = rows[from];
        k = put_edge(store, at, rows[from + 1], mark + 1, last, bound, edges, k);
        k = put_edge(store, at, rows[from + 2], mark, last, bound, edges, k);
    }
    k
}

// Puts the edges of a lane, of the block of a record, that are in a window after its rows: how many rows there are then. The words past those hold
// anything afterwards.
pub fn block_edges(
    store: &[u8],
    start: usize,
    rec: &[u8],
    lane: usize,
    last: Option<TransactionLocator>,
    window: Window,
    edges: &mut [u64],
    spare: &mut [u64],
) -> usize
    requires { Recorded store.now start rec.now × ((3 * (window.n + 2 * length (block_in rec.now).statements) ≤ length edges.old) × ((3 * length (block_in rec.now).statements ≤ length spare.old) × (lane < 9223372036854775808))) }
    ensures { BlockTaken (lane_kind lane) store.now (block_in rec.now) (as_maybe last) (as_maybe window.bound) edges.old edges.new lane window.n result }
{
    let kind = list_lanes::lane_kind(lane);
    let n = window.n;
    let bound = window.bound;
    let from = list_row_sort::ROW_WORDS * n;
    let m = list_own_ranges::own_ranges(
        store,
        start,
        rec,
        kind,
        last,
        bound,
        spare,
        &mut edges[from..],
    );
    take_edges(store, spare, m, lane, last, bound, edges, n)
}
