// A run of a part against its sources, each of which has a run of the same offsets next, or begins past it.
#![tactic(auto)]

ghost use Rattle.std.specs.Prelude.{◌≡◌, ◌+◌, ◌*◌, ◌≤◌, length, drop};
ghost use Rattle.index_spec.specs.Walk.{run_from};
ghost use Rattle.index_pieces.specs.Sources.{Ready};
ghost use Rattle.index_source_meeting.specs.Source.{SourceMet};
ghost use Rattle.index_source_meeting.specs.Met.{MetAll};

use committee_set::AuthoritySet;

// A source's cursor past a run, whom it names at the offsets of the run, and whom at its end.
#[derive(Clone, Copy)]
pub struct Onward {
    pub at: usize,
    pub left: usize,
    pub votes: AuthoritySet,
    pub after: AuthoritySet,
}

// How a source stands to the run at a position: it has a run of the same offsets next, or begins past the run; none if it does neither.
fn source_meets(index: &[u64], pos: usize, words: &[u64], at: usize, left: usize) -> Option<Onward>
    requires { (pos + 10 ≤ length index.now) × (at + 10 * left ≤ length words.now) }
    ensures { SourceMet (run_from (drop pos index.now)) words.now at left result }
{
    if left == 0 {
        return Some(Onward {
            at,
            left,
            votes: AuthoritySet::new(),
            after: AuthoritySet::new(),
        });
    }
    if index_two_runs::same_offsets(index, pos, words, at) {
        let next = at + index_runs::RUN_WORDS;
        let rest = left - 1;
        let after = index_two_runs::after_votes(index, pos, words, next, rest);
        let votes = AuthoritySet {
            low: words[at + 8],
            high: words[at + 9],
        };
        return Some(Onward {
            at: next,
            left: rest,
            votes,
            after,
        });
    }
    if !index_run_order::begins_past(
        index_runs::read_run(index, pos),
        index_runs::read_run(words, at),
    ) {
        return None;
    }
    let after = index_two_runs::after_votes(index, pos, words, at, left);
    Some(Onward {
        at,
        left,
        votes: AuthoritySet::new(),
        after,
    })
}

// Whom n sources name together at the offsets of the run at a position, and whom at its end, where each has a run of the same offsets next, or
// begins past the run; none if one of them does neither. `ahead` are their cursors past it.
pub fn sources_meet(
    index: &[u64],
    pos: usize,
    words: &[u64],
    cursors: &[u64],
    n: usize,
    ahead: &mut [u64],
) -> Option<(AuthoritySet, AuthoritySet)>
    requires { Ready words.now cursors.now n × ((pos + 10 ≤ length index.now) × (length ahead.old ≡ length cursors.now)) }
    ensures { MetAll (run_from (drop pos index.now)) words.now n cursors.now ahead.new result }
{
    let mut votes = AuthoritySet::new();
    let mut after = AuthoritySet::new();
    for k in 0..n {
        let met = source_meets(
            index,
            pos,
            words,
            cursors[2 * k] as usize,
            cursors[2 * k + 1] as usize,
        );
        let Some(m) = met else {
            return None;
        };
        ahead[2 * k] = m.at as u64;
        ahead[2 * k + 1] = m.left as u64;
        votes = committee_set::union(votes, m.votes);
        after = committee_set::union(after, m.after);
    }
    Some((votes, after))
}
