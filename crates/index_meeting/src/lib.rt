// A run of a part where each source has a run of the same offsets next, or begins past it: it is held against them without a merge.
#![tactic(auto)]

ghost use Rattle.std.specs.Prelude.{◌≡◌, true, false, ◌+◌, ◌≤◌, length, drop};
ghost use Rattle.index_spec.specs.Runs.{same_voters};
ghost use Rattle.index_spec.specs.Walk.{run_from};
ghost use Rattle.index_runs.specs.Values.{as_run, as_place};
ghost use Rattle.index_pieces.specs.Sources.{Ready};
ghost use Rattle.index_meeting.specs.Step.{NextIf, Passed};

use committee_set::AuthoritySet;
use index_runs::{Place, Run};

// Whether two sets have the same voters.
fn same_voters(v: AuthoritySet, w: AuthoritySet) -> bool
    ensures { result ≡ same_voters v w }
{
    if v.low != w.low {
        return false;
    }
    v.high == w.high
}

// Whether a run from a place on is not empty, has these voters, at least one, and others at its end.
fn is_next(x: Run, place: Place, votes: AuthoritySet, after: AuthoritySet) -> bool
    ensures { result ≡ true → NextIf (as_run x) (as_place place) votes after }
{
    if x.end <= x.start {
        return false;
    }
    if !same_voters(x.votes, votes) {
        return false;
    }
    if same_voters(votes, AuthoritySet::new()) {
        return false;
    }
    if same_voters(after, votes) {
        return false;
    }
    index_run_order::is_there(place, x)
}

// Whether the run at a position is the next one from a place on of a source in some words and n in the index, each of which meets it; the cursors
// move past it. Else they stay.
pub fn run_meets(
    index: &[u64],
    cursors: &mut [u64],
    ahead: &mut [u64],
    n: usize,
    own: &[u64],
    mine: &mut [u64],
    place: Place,
    pos: usize,
) -> bool
    requires sources { Ready index.now cursors.old n × Ready own.now mine.old 1 }
    requires room { (pos + 10 ≤ length index.now) × ((length ahead.old ≡ length cursors.old) × (length mine.old ≡ 2)) }
    ensures passed { result ≡ true → Passed own.now mine.old mine.new index.now n cursors.old cursors.new (as_place place) (run_from (drop pos index.now)) }
    ensures cursors_unchanged { result ≡ false → (cursors.new ≡ cursors.old) × (mine.new ≡ mine.old) }
{
    let mut next = [0u64; 2];
    let own_voters = index_source_meeting::sources_meet(index, pos, own, mine, 1, &mut next);
    let Some((v, v_after)) = own_voters else {
        return false;
    };
    let voters = index_source_meeting::sources_meet(index, pos, index, cursors, n, ahead);
    let Some((w, w_after)) = voters else {
        return false;
    };
    let votes = committee_set::union(v, w);
    let after = committee_set::union(v_after, w_after);
    if !is_next(index_runs::read_run(index, pos), place, votes, after) {
        return false;
    }
    list_row_sort::copy_words(&next, mine, 2);
    list_row_sort::copy_words(ahead, cursors, 2 * n);
    true
}
