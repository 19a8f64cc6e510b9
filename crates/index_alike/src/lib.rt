// Runs that each source of a part with runs left has next, word for word.
#![tactic(auto)]

ghost use Rattle.std.specs.Prelude.{◌≡◌, true, ◌+◌, ◌*◌, ◌≤◌, length, drop};
ghost use Rattle.index_spec.specs.Walk.{run_from};
ghost use Rattle.index_pieces.specs.Sources.{Ready};
ghost use Rattle.index_alike.specs.Alike.{HasRun, AllHave, Shared};

// Whether the runs at two positions are the same.
fn same_run(index: &[u64], a: usize, b: usize) -> bool
    requires { (a + 10 ≤ length index.now) × (b + 10 ≤ length index.now) }
    ensures { result ≡ true → run_from (drop a index.now) ≡ run_from (drop b index.now) }
{
    for i in 0..10 {
        if index[a + i] != index[b + i] {
            return false;
        }
    }
    true
}

// Whether a source with so many runs left has the run at a position after its next k; or has none left.
fn has_run(index: &[u64], at: usize, left: usize, k: usize, pos: usize) -> bool
    requires { (at + 10 * left ≤ length index.now) × (pos + 10 ≤ length index.now) }
    ensures { result ≡ true → HasRun index.now pos k at left }
{
    if left == 0 {
        return true;
    }
    if left <= k {
        return false;
    }
    same_run(index, pos, at + index_runs::RUN_WORDS * k)
}

// The same of each of n sources.
pub fn all_have(index: &[u64], cursors: &[u64], n: usize, k: usize, pos: usize) -> bool
    requires { Ready index.now cursors.now n × (pos + 10 ≤ length index.now) }
    ensures { result ≡ true → AllHave index.now cursors.now n pos k }
{
    for j in 0..n {
        let at = cursors[2 * j] as usize;
        if !has_run(index, at, cursors[2 * j + 1] as usize, k, pos) {
            return false;
        }
    }
    true
}

// How many runs at a position each of n sources with runs left has next, of so many at most.
pub fn shared_runs(index: &[u64], cursors: &[u64], n: usize, pos: usize, most: usize) -> usize
    requires { Ready index.now cursors.now n × (pos + 10 * most ≤ length index.now) }
    ensures { (result ≤ most) × Shared index.now cursors.now n pos result }
{
    for k in 0..most {
        if !all_have(index, cursors, n, k, pos + index_runs::RUN_WORDS * k) {
            return k;
        }
    }
    most
}
