// Where a sweep over the edges begins: just after a given locator, with marks read from the store once, or at the first edge.
#![tactic(auto)]

ghost use Rattle.std.specs.Prelude.{◌≡◌, ℕ, ◌≤◌, length, get_or};
ghost use Rattle.base.specs.Lists.{pick};
ghost use Rattle.types.specs.Values.{as_locator, as_maybe};
ghost use Rattle.final_block_votes.specs.Walk.{SortedStore};
ghost use Rattle.list_row_sort.specs.Rows.{rows_of};
ghost use Rattle.list_range_rows.specs.Ranges.{any_covers};
ghost use Rattle.list_kind_ranges.specs.Kinds.{any_span};
ghost use Rattle.list_lanes.specs.Lanes.{lane_ranges};
ghost use Rattle.list_sweep.specs.Sweep.{MarksAt, Room};
ghost use Rattle.list_sweep_start.specs.Begin.{ProperRows, StandsAfter, StoodAfter, Begun};

use list_cuts::Window;
use list_lanes::Wanted;
use list_sweep::Sweep;
use types::TransactionLocator;

// The words of the rows of one block's ranges.
const BLOCK_ROWS: usize = 3072;

// ---- marks at a locator

// Whether one of the first m rows, which are ranges, covers a locator: it begins there or before, and ends after it.
fn any_covers(store: &[u8], rows: &[u64], m: usize, locator: TransactionLocator) -> bool
    requires { ProperRows store.now rows.now m }
    ensures { result ≡ any_covers store.now (rows_of rows.now m) (as_locator locator) }
{
    let last = Some(locator);
    for i in 0..m {
        let from = list_row_sort::ROW_WORDS * i;
        let at = rows[from] as usize;
        let starts = list_order::follows(store, at, rows[from + 1], last);
        let ends = list_order::follows(store, at, rows[from + 2], last);
        if starts {
            continue;
        }
        if ends {
            return true;
        }
    }
    false
}

// Whether a range of a lane covers a locator.
fn lane_says(
    store: &[u8],
    order: &[u64],
    wanted: Wanted,
    lane: usize,
    locator: TransactionLocator,
    rows: &mut [u64],
    spare: &mut [u64],
) -> bool
    requires { SortedStore store.now order.now × ((3072 ≤ length rows.old) × (3072 ≤ length spare.old)) }
    ensures { result ≡ any_span (lane_ranges wanted store.now order.now lane) (as_locator locator) }
{
    if !list_lanes::wants_lane(wanted, lane) {
        return false;
    }
    let place = lane % 1024;
    if order.len() <= place {
        return false;
    }
    let at = order[place] as usize;
    let kind = list_lanes::lane_kind(lane);
    let start = at + 8;
    let end = store_entries::record_end(store, at);
    let here = Some(locator);
    let m = list_own_ranges::own_ranges(
        store,
        start,
        &store[start..end],
        kind,
        here,
        here,
        rows,
        spare,
    );
    any_covers(store, rows, m, locator)
}

// A word for a test.
fn flag(yes: bool) -> u64
    ensures { result ≡ pick yes 1 0 }
{
    if yes {
        return 1;
    }
    0
}

// Marks the lanes that have a range that covers a locator.
fn mark_lanes(
    store: &[u8],
    order: &[u64],
    wanted: Wanted,
    locator: TransactionLocator,
    marks: &mut [u64],
)
    requires { SortedStore store.now order.now × (length marks.old ≡ 3072) }
    ensures { MarksAt (lane_ranges wanted store.now order.now) marks.new (as_locator locator) }
{
    let mut rows = [0u64; BLOCK_ROWS];
    let mut spare = [0u64; BLOCK_ROWS];
    for k in 0..list_lanes::LANES {
        let yes = lane_says(store, order, wanted, k, locator, &mut rows, &mut spare);
        marks[k] = flag(yes);
    }
}

// ---- the beginning

// Stands just after a locator, of which the marks are, with the window after it: the edges there are passed.
fn stand_after(
    store: &[u8],
    window: Window,
    given: TransactionLocator,
    edges: &[u64],
    marks: &mut [u64],
) -> Sweep
    requires { StandsAfter store.now edges.now marks.old window given }
    ensures { StoodAfter store.now edges.now marks.old marks.new window given result }
{
    let block = given.block;
    let here = TransactionLocator {
        block,
        offset: given.offset + 1,
    };
    let n = window.n;
    let bound = window.bound;
    if n == 0 {
        return Sweep {
            n,
            bound,
            at: 0,
            here,
        };
    }
    let first = list_cuts::row_locator(store, edges, 0);
    if types::locator_before(here, first) {
        return Sweep {
            n,
            bound,
            at: 0,
            here,
        };
    }
    let at = list_sweep::pass_edges(store, edges, n, 0, marks);
    Sweep { n, bound, at, here }
}

// Begins a sweep after a given locator, or at the first edge; or there is nothing to stand at. All marks are 0.
pub fn begin(
    store: &[u8],
    order: &[u64],
    wanted: Wanted,
    after: Option<TransactionLocator>,
    edges: &mut [u64],
    marks: &mut [u64],
) -> Option<Sweep>
    requires { Room store.now order.now edges.old marks.old × ((k : ℕ) → get_or marks.old k 0 ≡ 0) }
    ensures { Begun (lane_ranges wanted store.now order.now) store.now edges.new marks.new (as_maybe after) result }
{
    let Some(given) = after else {
        let window = list_window::gather(store, order, wanted, after, edges);
        return list_sweep::go_on(store, order, wanted, window, 0, edges, marks);
    };
    mark_lanes(store, order, wanted, given, marks);
    let window = list_window::gather(store, order, wanted, after, edges);
    if given.offset == types::LAST_OFFSET {
        // Nothing stands just after it: the sweep stands at the locator itself, which no list shows.
        let n = window.n;
        let bound = window.bound;
        return Some(Sweep {
            n,
            bound,
            at: 0,
            here: given,
        });
    }
    let sweep = stand_after(store, window, given, edges, marks);
    Some(sweep)
}
