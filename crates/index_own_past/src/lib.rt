// The next run of a source in other words against the runs at a position: which of them it begins past.
#![tactic(auto)]

ghost use Rattle.std.specs.Prelude.{◌≡◌, true, ◌+◌, ◌*◌, ◌≤◌, length, drop};
ghost use Rattle.index_spec.specs.Walk.{run_from};
ghost use Rattle.index_pieces.specs.Sources.{Ready};
ghost use Rattle.index_own_past.specs.Own.{OwnPast};

use index_runs::Run;

// How many runs at a position, of so many at most, a run begins past: by halving, as the runs of a part ascend.
fn runs_before(index: &[u64], pos: usize, most: usize, x: Run) -> usize
    requires { pos + 10 * most ≤ length index.now }
    ensures { result ≤ most }
{
    let mut low: usize = 0;
    let mut high = most;
    while low < high {
        let middle = low + (high - low) / 2;
        let run = index_runs::read_run(index, pos + index_runs::RUN_WORDS * middle);
        if index_run_order::begins_past(run, x) {
            low = middle + 1;
        } else {
            high = middle;
        }
    }
    low
}

// How many runs at a position, of so many at most, the next run of a source in some words begins past.
pub fn own_limit(index: &[u64], pos: usize, most: usize, own: &[u64], mine: &[u64]) -> usize
    requires { Ready own.now mine.now 1 × (pos + 10 * most ≤ length index.now) }
    ensures { result ≤ most }
{
    if mine[1] == 0 {
        return most;
    }
    let at = mine[0] as usize;
    runs_before(index, pos, most, index_runs::read_run(own, at))
}

// Whether the next run of a source in some words begins past the run at a position; or none is left of it.
pub fn own_past(index: &[u64], pos: usize, own: &[u64], mine: &[u64]) -> bool
    requires { Ready own.now mine.now 1 × (pos + 10 ≤ length index.now) }
    ensures { result ≡ true → OwnPast (run_from (drop pos index.now)) own.now mine.now }
{
    if mine[1] == 0 {
        return true;
    }
    let at = mine[0] as usize;
    index_run_order::begins_past(
        index_runs::read_run(index, pos),
        index_runs::read_run(own, at),
    )
}
