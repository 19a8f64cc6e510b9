// Marks of the stored blocks, one for each lane of ranges, carried from edge to edge in ascending order and from window to window: at each locator they
// say which blocks vote for it, which reject it, and whose share it is.
#![tactic(auto)]

ghost use Rattle.std.specs.Prelude.{◌≡◌, ℕ, ◌+◌, ◌*◌, ◌/◌, ◌%◌, ◌≤◌, ◌<◌, length, get_or, set};
ghost use Rattle.std.proofs.Math.Option.{some};
ghost use Rattle.types.specs.Values.{as_locator, as_maybe};
ghost use Rattle.final_block_votes.specs.Walk.{SortedStore};
ghost use Rattle.list_row_sort.specs.Rows.{row_at, key_of};
ghost use Rattle.list_lanes.specs.Lanes.{lane_ranges};
ghost use Rattle.list_sweep.specs.Sweep.{Room, Stands, MarksAt};
ghost use Rattle.list_sweep.specs.Step.{Passable, Passed, Ready, StopPassed, Goes, Gone, Moved};

use list_cuts::Window;
use list_lanes::Wanted;
use types::TransactionLocator;

// Where the sweep stands: the first rows of the table and up to which locator they are whole, how many of them are passed, and the locator.
#[derive(Clone, Copy)]
pub struct Sweep {
    pub n: usize,
    pub bound: Option<TransactionLocator>,
    pub at: usize,
    pub here: TransactionLocator,
}

// ---- passing edges

// Sets the mark of a lane at a beginning, and clears it at an end.
fn pass_edge(edges: &[u64], i: usize, marks: &mut [u64])
    requires { (3 * i + 3 ≤ length edges.now) × ((row_at edges.now i).mark / 2 < length marks.old) }
    ensures { marks.new ≡ set marks.old ((row_at edges.now i).mark / 2) ((row_at edges.now i).mark % 2) }
{
    let mark = edges[list_row_sort::ROW_WORDS * i + 2];
    let lane = (mark / 2) as usize;
    marks[lane] = mark % 2;
}

// Passes the rows from an index on that are at its locator: how many are passed then.
pub fn pass_edges(store: &[u8], edges: &[u64], n: usize, at: usize, marks: &mut [u64]) -> usize
    requires { Passable store.now edges.now marks.old n at }
    ensures { Passed store.now edges.now marks.old marks.new n at result }
{
    let mut i = at;
    while i < n {
        if list_row_sort::row_before(store, edges, at, i) {
            return i;
        }
        pass_edge(edges, i, marks);
        i += 1;
    }
    i
}

// Goes to the locator of the first row that is not passed.
fn pass_stop(store: &[u8], edges: &[u64], window: Window, at: usize, marks: &mut [u64]) -> Sweep
    requires { Ready store.now edges.now marks.old window at }
    ensures { StopPassed store.now edges.now marks.old marks.new window at result }
{
    let here = list_cuts::row_locator(store, edges, at);
    let n = window.n;
    let bound = window.bound;
    let next = pass_edges(store, edges, n, at, marks);
    Sweep {
        n,
        bound,
        at: next,
        here,
    }
}

// ---- from window to window

// Goes to the next locator at which an edge is, or there is none: in what is left of a window, or in the one after it.
pub fn go_on(
    store: &[u8],
    order: &[u64],
    wanted: Wanted,
    window: Window,
    at: usize,
    edges: &mut [u64],
    marks: &mut [u64],
) -> Option<Sweep>
    requires { Room store.now order.now edges.old marks.old × Goes (lane_ranges wanted store.now order.now) store.now edges.old marks.old window at }
    ensures { Gone (lane_ranges wanted store.now order.now) store.now edges.old marks.old edges.new marks.new window at result }
{
    if at < window.n {
        let sweep = pass_stop(store, edges, window, at, marks);
        return Some(sweep);
    }
    let last = window.bound;
    last?; // no row was left out
    let next = list_window::gather(store, order, wanted, last, edges);
    if next.n == 0 {
        return None;
    }
    let sweep = pass_stop(store, edges, next, 0, marks);
    Some(sweep)
}

// Goes to the next locator at which an edge is, or there is none.
pub fn advance(
    store: &[u8],
    order: &[u64],
    wanted: Wanted,
    sweep: Sweep,
    edges: &mut [u64],
    marks: &mut [u64],
) -> Option<Sweep>
    requires { Room store.now order.now edges.old marks.old × Stands (lane_ranges wanted store.now order.now) store.now edges.old marks.old sweep }
    ensures { Moved (lane_ranges wanted store.now order.now) store.now marks.old edges.new marks.new (some (as_locator sweep.here)) result }
{
    let n = sweep.n;
    let bound = sweep.bound;
    let at = sweep.at;
    go_on(store, order, wanted, Window { n, bound }, at, edges, marks)
}
