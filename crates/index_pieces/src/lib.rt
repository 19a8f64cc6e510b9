// The first stretch from a place on in one run or in two: what a merge of parts is made of.
#![tactic(auto)]

ghost use Rattle.std.specs.Prelude.{◌≡◌, ◌&&◌};
ghost use Rattle.index_spec.specs.Runs.{touches, same_voters};
ghost use Rattle.index_runs.specs.Values.{as_run, as_maybe, as_place};
ghost use Rattle.index_pieces.specs.Pieces.{nearer, cut, overlaid, both, from_place};

use committee_set::AuthoritySet;
use index_runs::{Place, Run};
use std::cmp::Ordering;

// What is left of a run from a place on.
pub fn from_place(place: Place, x: Run) -> Option<Run>
    ensures { as_maybe result ≡ from_place (as_place place) (as_run x) }
{
    let Place::Beyond(block, offset) = place else {
        return Some(x);
    };
    let order = types::compare(block, x.block);
    match order {
        Ordering::Less => Some(x),
        Ordering::Greater => None,
        Ordering::Equal => {
            if x.end <= offset {
                return None;
            }
            if offset <= x.start {
                return Some(x);
            }
            let of = x.block;
            let votes = x.votes;
            Some(Run {
                block: of,
                start: offset,
                end: x.end,
                votes,
            })
        }
    }
}

// The nearer of two offsets.
fn nearer(a: u64, b: u64) -> u64
    ensures { result ≡ nearer a b }
{
    if a < b {
        return a;
    }
    b
}

// A run up to an offset.
fn cut(x: Run, offset: u64) -> Run
    ensures { as_run result ≡ cut (as_run x) offset }
{
    let block = x.block;
    let votes = x.votes;
    Run {
        block,
        start: x.start,
        end: nearer(x.end, offset),
        votes,
    }
}

// Of the first piece of one list of runs and that of another, from the same place on, the first piece of both.
fn overlaid(x: Run, y: Run) -> Run
    ensures { as_run result ≡ overlaid (as_run x) (as_run y) }
{
    let order = types::compare(x.block, y.block);
    match order {
        Ordering::Less => x,
        Ordering::Greater => y,
        Ordering::Equal => {
            if x.start < y.start {
                return cut(x, y.start);
            }
            if y.start < x.start {
                return cut(y, x.start);
            }
            let block = x.block;
            let votes = committee_set::union(x.votes, y.votes);
            Run {
                block,
                start: x.start,
                end: nearer(x.end, y.end),
                votes,
            }
        }
    }
}

// The same where either may have none.
pub fn both(x: Option<Run>, y: Option<Run>) -> Option<Run>
    ensures { as_maybe result ≡ both (as_maybe x) (as_maybe y) }
{
    let Some(a) = x else {
        return y;
    };
    let Some(b) = y else {
        return x;
    };
    Some(overlaid(a, b))
}

// Whether a run begins where another ends and has its voters.
pub fn continues(x: Run, y: Run) -> bool
    ensures { result ≡ touches (as_run x) (as_run y) && same_voters x.votes y.votes }
{
    if x.end != y.start {
        return false;
    }
    if x.votes.low != y.votes.low {
        return false;
    }
    if x.votes.high != y.votes.high {
        return false;
    }
    let order = types::compare(x.block, y.block);
    match order {
        Ordering::Equal => true,
        Ordering::Less => false,
        Ordering::Greater => false,
    }
}
