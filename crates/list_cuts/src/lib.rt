// A table of edges that is cut where it is full: the rows up to a locator stay, so that there is room for more.
#![tactic(auto)]

ghost use Rattle.std.specs.Prelude.{◌≡◌, ◌+◌, ◌*◌, ◌≤◌, length};
ghost use Rattle.types.specs.Values.{as_locator};
ghost use Rattle.list_row_sort.specs.Rows.{row_at, key_of};
ghost use Rattle.list_cuts.specs.Cuts.{Cuttable, CutAt};
ghost use Rattle.list_cuts.specs.Room.{Halvable, RoomMade};

use types::TransactionLocator;

// The first rows of a table: how many, and up to which locator where there were more than fit.
#[derive(Clone, Copy)]
pub struct Window {
    pub n: usize,
    pub bound: Option<TransactionLocator>,
}

// How many of the first n rows of a table, which ascend, are not after the key of the row at an index: by halving. All rows of that key are among them.
fn cut(store: &[u8], edges: &[u64], n: usize, at: usize) -> usize
    requires { Cuttable store.now edges.now n at }
    ensures { CutAt store.now edges.now n at result }
{
    let mut low = at + 1;
    let mut high = n;
    while low < high {
        let middle = low + (high - low) / 2;
        if list_row_sort::row_before(store, edges, at, middle) {
            high = middle;
        } else {
            low = middle + 1;
        }
    }
    low
}

// The locator of the row at an index.
pub fn row_locator(store: &[u8], edges: &[u64], i: usize) -> TransactionLocator
    requires { (3 * i + 3 ≤ length edges.now) × ((row_at edges.now i).at + 48 ≤ length store.now) }
    ensures { as_locator result ≡ key_of store.now (row_at edges.now i) }
{
    let from = list_row_sort::ROW_WORDS * i;
    let block = record_reference_bytes::read_reference(store, edges[from] as usize);
    TransactionLocator {
        block,
        offset: edges[from + 1],
    }
}

// Makes room for more rows after those of a window: where there is none, the upper half of them goes, and the window ends where they began. Where so
// many are at one locator that this leaves too little room, fifteen in sixteen go.
pub fn make_room(
    store: &[u8],
    edges: &mut [u64],
    spare: &mut [u64],
    window: Window,
    more: usize,
) -> Window
    requires { Halvable store.now edges.old spare.old window.n more }
    ensures { RoomMade store.now edges.old edges.new window result more }
{
    let n = window.n;
    if more <= edges.len() / list_row_sort::ROW_WORDS - n {
        return window;
    }
    list_row_sort::sort_rows(store, edges, spare, n);
    let middle = n / 2;
    let m = cut(store, edges, n, middle);
    if more <= edges.len() / list_row_sort::ROW_WORDS - m {
        let locator = row_locator(store, edges, middle);
        return Window {
            n: m,
            bound: Some(locator),
        };
    }
    let low = n / 16;
    let k = cut(store, edges, n, low);
    let locator = row_locator(store, edges, low);
    Window {
        n: k,
        bound: Some(locator),
    }
}
