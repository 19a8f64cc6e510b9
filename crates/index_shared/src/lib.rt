// The runs of a part that each source with runs left has next, word for word: they are passed without a merge.
#![tactic(auto)]

ghost use Rattle.std.specs.Prelude.{◌+◌, ◌*◌, ◌≤◌, length};
ghost use Rattle.index_runs.specs.Values.{as_place};
ghost use Rattle.index_pieces.specs.Sources.{Ready};
ghost use Rattle.index_shared.specs.Shared.{RunsPassed, CommonPassed};

use index_cursors::Spot;
use index_runs::Place;

// How many runs are passed at a time: what is compared in vain, and what is halved, stays short.
const WINDOW: usize = 128;

// Runs that were passed: where they stand, how many there are, and the place after them.
#[derive(Clone, Copy)]
pub struct Common {
    pub pos: usize,
    pub runs: usize,
    pub place: Place,
}

// The lesser of two numbers.
fn fewer(a: usize, b: usize) -> usize
    ensures { (result ≤ a) × (result ≤ b) }
{
    if a < b {
        return a;
    }
    b
}

// How many runs at a position, of so many at most, are worth a look: none where a source has not the second of them next but one.
fn reach(
    index: &[u64],
    cursors: &[u64],
    n: usize,
    own: &[u64],
    mine: &[u64],
    pos: usize,
    left: usize,
) -> usize
    requires sources { Ready index.now cursors.now n × Ready own.now mine.now 1 }
    requires room { pos + 10 * left ≤ length index.now }
    ensures { result ≤ left }
{
    if left < 2 {
        return 0;
    }
    if !index_alike::all_have(index, cursors, n, 1, pos + index_runs::RUN_WORDS) {
        return 0;
    }
    index_own_past::own_limit(index, pos, fewer(left, WINDOW), own, mine)
}

// ---- passed

// Passes the runs at a spot that each source in the index with runs left has next, as far as the source in some words begins past them, and answers
// how many. The last of them is left: what comes after it may go on with it.
pub fn pass_shared(
    index: &[u64],
    cursors: &mut [u64],
    n: usize,
    own: &[u64],
    mine: &[u64],
    spot: Spot,
) -> usize
    requires sources { Ready index.now cursors.old n × Ready own.now mine.now 1 }
    requires room { spot.pos + 10 * spot.left ≤ length index.now }
    ensures { (result ≤ spot.left) × RunsPassed own.now mine.now index.now n cursors.old cursors.new (as_place spot.place) spot.pos result }
{
    let pos = spot.pos;
    let left = spot.left;
    let lead = index_cursors::leader(cursors, n);
    if n <= lead {
        return 0;
    }
    let limit = reach(index, cursors, n, own, mine, pos, left);
    let shared = index_alike::shared_runs(index, cursors, n, pos, limit);
    let apart = index_run_order::apart_runs(index, pos, shared);
    if apart < 2 {
        return 0;
    }
    let runs = apart - 1;
    if !index_own_past::own_past(index, pos + index_runs::RUN_WORDS * runs, own, mine) {
        return 0;
    }
    let place = spot.place;
    if !index_run_order::is_there(place, index_runs::read_run(index, pos)) {
        return 0;
    }
    index_cursors::move_on(cursors, n, runs);
    runs
}

// Passes from a place on the runs that the sources in the index share, as they stand in the first of them that has runs left.
pub fn pass_common(
    index: &[u64],
    cursors: &mut [u64],
    n: usize,
    own: &[u64],
    mine: &[u64],
    place: Place,
) -> Common
    requires { Ready index.now cursors.old n × Ready own.now mine.now 1 }
    ensures { CommonPassed own.now mine.now index.now n cursors.old cursors.new (as_place place) result }
{
    let lead = index_cursors::leader(cursors, n);
    if n <= lead {
        return Common {
            pos: 0,
            runs: 0,
            place,
        };
    }
    let pos = cursors[2 * lead] as usize;
    let spot = Spot {
        place,
        pos,
        left: cursors[2 * lead + 1] as usize,
    };
    let runs = pass_shared(index, cursors, n, own, mine, spot);
    let after = index_cursors::spot_after(index, spot, runs);
    let beyond = after.place;
    Common {
        pos,
        runs,
        place: beyond,
    }
}
