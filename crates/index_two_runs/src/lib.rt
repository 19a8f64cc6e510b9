// Two runs in words: whether they are of the same offsets, and whom the second names at the end of the first.
#![tactic(auto)]

ghost use Rattle.std.specs.Prelude.{◌≡◌, true, ◌+◌, ◌*◌, ◌≤◌, length, drop};
ghost use Rattle.index_spec.specs.Walk.{run_from, runs_from};
ghost use Rattle.index_two_runs.specs.Two.{SameOffsets, after_votes};

use committee_set::AuthoritySet;
use std::cmp::Ordering;

// Whether the runs at two positions are of the same offsets of one block: the first eight words.
pub fn same_offsets(index: &[u64], pos: usize, words: &[u64], at: usize) -> bool
    requires { (pos + 10 ≤ length index.now) × (at + 10 ≤ length words.now) }
    ensures { result ≡ true → SameOffsets (run_from (drop pos index.now)) (run_from (drop at words.now)) }
{
    for i in 0..8 {
        if index[pos + i] != words[at + i] {
            return false;
        }
    }
    true
}

// Whom the next run of a source names at the end of the run at a position, past which it begins.
pub fn after_votes(index: &[u64], pos: usize, words: &[u64], at: usize, left: usize) -> AuthoritySet
    requires { (pos + 10 ≤ length index.now) × (at + 10 * left ≤ length words.now) }
    ensures { result ≡ after_votes (run_from (drop pos index.now)) (runs_from left (drop at words.now)) }
{
    if left == 0 {
        return AuthoritySet::new();
    }
    if index[pos + 7] != words[at + 6] {
        return AuthoritySet::new();
    }
    let x = index_runs::read_run(index, pos);
    let y = index_runs::read_run(words, at);
    let order = types::compare(x.block, y.block);
    match order {
        Ordering::Equal => y.votes,
        Ordering::Less => AuthoritySet::new(),
        Ordering::Greater => AuthoritySet::new(),
    }
}
