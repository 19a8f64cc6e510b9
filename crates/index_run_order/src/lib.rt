// How a run stands to another run, to the one before it and to a place.
#![tactic(auto)]

ghost use Rattle.std.specs.Prelude.{◌≡◌, true, false, ◌+◌, ◌*◌, ◌≤◌, length};
ghost use Rattle.index_spec.specs.Walk.{Past, At};
ghost use Rattle.index_runs.specs.Values.{as_run, as_place};
ghost use Rattle.index_run_order.specs.Apart.{GoesOn, Apart};

use index_runs::{Place, Run};
use std::cmp::Ordering;

// Whether a run begins at the end of another or past it.
pub fn begins_past(x: Run, y: Run) -> bool
    ensures { result ≡ true → Past (as_run x).reference (as_run x).end (as_run y).reference (as_run y).start }
{
    let order = types::compare(x.block, y.block);
    match order {
        Ordering::Less => true,
        Ordering::Greater => false,
        Ordering::Equal => x.end <= y.start,
    }
}

// Whether a run begins at a place or past it.
pub fn is_there(place: Place, x: Run) -> bool
    ensures { result ≡ true → At (as_place place) (as_run x).reference (as_run x).start }
{
    let Place::Beyond(block, offset) = place else {
        return true;
    };
    let order = types::compare(block, x.block);
    match order {
        Ordering::Less => true,
        Ordering::Greater => false,
        Ordering::Equal => offset <= x.start,
    }
}

// Whether a run begins at the offset where the one before it ends, with the same voters.
fn goes_on(index: &[u64], at: usize) -> bool
    requires { at + 20 ≤ length index.now }
    ensures { result ≡ false → GoesOn index.now at → ⊥ }
{
    if index[at + 7] != index[at + 16] {
        return false;
    }
    if index[at + 8] != index[at + 18] {
        return false;
    }
    index[at + 9] == index[at + 19]
}

// How many runs in a row there are of which none goes on with the one before it, of so many at most.
pub fn apart_runs(index: &[u64], pos: usize, most: usize) -> usize
    requires { pos + 10 * most ≤ length index.now }
    ensures { (result ≤ most) × Apart index.now pos result }
{
    for k in 1..most {
        if goes_on(index, pos + index_runs::RUN_WORDS * (k - 1)) {
            return k;
        }
    }
    most
}
