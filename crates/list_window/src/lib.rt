// The edges of the stored blocks' votes, rejects and shares, window by window: the least ones after a locator, as many as a table of fixed size holds.
#![tactic(auto)]

ghost use Rattle.std.specs.Prelude.{◌≡◌, ◌+◌, ◌*◌, ◌%◌, ◌<◌, length, get_or};
ghost use Rattle.store_spec.specs.Entry.{block_at};
ghost use Rattle.final_block_votes.specs.Walk.{SortedStore};
ghost use Rattle.types.specs.Values.{as_maybe};
ghost use Rattle.list_kind_ranges.specs.Kinds.{kind_ranges};
ghost use Rattle.list_lanes.specs.Lanes.{lane_kind, lane_ranges};
ghost use Rattle.list_window.specs.Window.{Gathered};
ghost use Rattle.list_window.specs.Step.{Enterable, NextTaken};

use list_cuts::Window;
use list_lanes::Wanted;
use types::TransactionLocator;

// The words of a table of edges.
pub const TABLE_WORDS: usize = 16386;

// Puts the edges of a lane, of the block of the entry at a position, after the rows of a window, once there is room for them.
fn next_block(
    store: &[u8],
    at: usize,
    lane: usize,
    last: Option<TransactionLocator>,
    window: Window,
    edges: &mut [u64],
    spare: &mut [u64],
) -> Window
    requires { Enterable store.now at lane edges.old spare.old window.n }
    ensures { NextTaken store.now (kind_ranges (lane_kind lane) (block_at store.now at)) (as_maybe last) edges.old edges.new window result lane }
{
    let start = at + 8;
    let end = store_entries::record_end(store, at);
    let count = record_reader::statement_count(&store[start..end]);
    let room = list_cuts::make_room(store, edges, spare, window, 2 * count);
    let k = list_block_edges::block_edges(
        store,
        start,
        &store[start..end],
        lane,
        last,
        room,
        edges,
        spare,
    );
    let bound = room.bound;
    Window { n: k, bound }
}

// Puts the edges of a lane that has a block after the rows of a window: none where it is not wanted.
fn next_lane(
    store: &[u8],
    order: &[u64],
    lane: usize,
    wanted: Wanted,
    last: Option<TransactionLocator>,
    window: Window,
    edges: &mut [u64],
    spare: &mut [u64],
) -> Window
    requires { (lane % 1024 < length order.now) × Enterable store.now (get_or order.now (lane % 1024) 0) lane edges.old spare.old window.n }
    ensures { NextTaken store.now (lane_ranges wanted store.now order.now lane) (as_maybe last) edges.old edges.new window result lane }
{
    if !list_lanes::wants_lane(wanted, lane) {
        return window;
    }
    let place = lane % 1024;
    let at = order[place] as usize;
    next_block(store, at, lane, last, window, edges, spare)
}

// The least edges of the stored blocks' ranges after a locator, or from the start, in ascending order: all of them, or those up to a bound where there
// are more than the 5,462 rows of the table.
pub fn gather(
    store: &[u8],
    order: &[u64],
    wanted: Wanted,
    last: Option<TransactionLocator>,
    edges: &mut [u64],
) -> Window
    requires { SortedStore store.now order.now × (length edges.old ≡ 16386) }
    ensures { Gathered (lane_ranges wanted store.now order.now) store.now (as_maybe last) (as_maybe result.bound) edges.new result.n }
{
    let mut spare = [0u64; TABLE_WORDS];
    let mut window = Window { n: 0, bound: None };
    for k in 0..list_lanes::LANES {
        if order.len() <= k % 1024 {
            continue; // no block
        }
        window = next_lane(store, order, k, wanted, last, window, edges, &mut spare);
    }
    list_row_sort::sort_rows(store, edges, &mut spare, window.n);
    window
}
