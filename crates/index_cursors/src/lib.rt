// The cursors of a part and of its sources: which source has runs left, and where they stand after some runs.
#![tactic(auto)]

ghost use Rattle.std.specs.Prelude.{◌≡◌, ◌+◌, ◌-◌, ◌*◌, ◌≤◌, ◌<◌, length};
ghost use Rattle.index_cursors.specs.Cursors.{Leads, moved_at, Movable, MovedBy};
ghost use Rattle.index_cursors.specs.Spots.{SpotAfter};

use index_runs::Place;

// The first of n sources that has runs left, if there is one; else n.
pub fn leader(cursors: &[u64], n: usize) -> usize
    requires { 2 * n ≤ length cursors.now }
    ensures { result < n → Leads cursors.now result }
{
    for j in 0..n {
        if cursors[2 * j + 1] != 0 {
            return j;
        }
    }
    n
}

// Where a cursor stands after k runs, if there are runs left.
fn moved_at(at: u64, left: u64, k: usize) -> u64
    requires { (0 < left → k ≤ left) × (at + 10 * left ≤ 18446744073709551615) }
    ensures { result ≡ moved_at at left k }
{
    if left == 0 {
        return at;
    }
    at + 10 * (k as u64)
}

// How many runs are left after k.
fn moved_left(left: u64, k: usize) -> u64
    ensures { result ≡ left - k }
{
    if left < k as u64 {
        return 0;
    }
    left - k as u64
}

// Moves the cursors of n sources on by k runs.
pub fn move_on(cursors: &mut [u64], n: usize, k: usize)
    requires { Movable cursors.old n k }
    ensures { MovedBy cursors.old n k cursors.new }
{
    for j in 0..n {
        let at = cursors[2 * j];
        let left = cursors[2 * j + 1];
        cursors[2 * j] = moved_at(at, left, k);
        cursors[2 * j + 1] = moved_left(left, k);
    }
}

// Where a part's words are held against its sources: from which place on its runs are asked for, where the next one stands, how many are left.
#[derive(Clone, Copy)]
pub struct Spot {
    pub place: Place,
    pub pos: usize,
    pub left: usize,
}

// The spot after so many runs at a spot.
pub fn spot_after(index: &[u64], spot: Spot, k: usize) -> Spot
    requires { (k ≤ spot.left) × (spot.pos + 10 * spot.left ≤ length index.now) }
    ensures { SpotAfter index.now spot k result }
{
    if k == 0 {
        return spot;
    }
    let pos = spot.pos;
    let last = index_runs::read_run(index, pos + index_runs::RUN_WORDS * (k - 1));
    let block = last.block;
    Spot {
        place: Place::Beyond(block, last.end),
        pos: pos + index_runs::RUN_WORDS * k,
        left: spot.left - k,
    }
}
