// The parts of a block's includes and its own votes merged, one run after the other: a part of the index.
#![tactic(auto)]

ghost use Rattle.std.specs.Prelude.{◌≡◌, ◌+◌, ◌*◌, ◌≤◌, length, drop};
ghost use Rattle.committee_set.specs.AuthoritySet.{AuthoritySet as Voters, united};
ghost use Rattle.record_spec.specs.Reference.{TransactionLocator as Locator};
ghost use Rattle.index_spec.specs.Walk.{runs_from};
ghost use Rattle.index_runs.specs.Values.{as_run, as_maybe, as_place};
ghost use Rattle.index_pieces.specs.Pieces.{PieceOr, first_piece, skipped};
ghost use Rattle.index_pieces.specs.Sources.{named_by, Ready, Moved, together, ended, GrownFrom};

use index_runs::{Place, Run};

// ---- sources: parts of the index, each with a cursor of two words, where its next run stands and how many are left

// A piece, and the cursor before its run.
#[derive(Clone, Copy)]
struct Found {
    at: usize,
    left: usize,
    piece: Option<Run>,
}

// The first piece of a source from a place on.
fn source_piece(index: &[u64], from: usize, count: usize, place: Place) -> Found
    requires { from + 10 * count ≤ length index.now }
    ensures left_value { result.at + 10 * result.left ≡ from + 10 * count }
    ensures index_value { runs_from result.left (drop result.at index.now) ≡ skipped (as_place place) (runs_from count (drop from index.now)) }
    ensures piece_value { as_maybe result.piece ≡ first_piece (as_place place) (runs_from count (drop from index.now)) }
{
    let mut at = from;
    let mut left = count;
    while 0 < left {
        let found = index_pieces::from_place(place, index_runs::read_run(index, at));
        match found {
            Some(x) => {
                return Found {
                    at,
                    left,
                    piece: Some(x),
                };
            }
            None => {
                at = at + index_runs::RUN_WORDS;
                left = left - 1;
            }
        }
    }
    Found {
        at,
        left,
        piece: None,
    }
}

// The first piece of n sources and another piece together, all from one place on. The cursors move on.
fn sources_piece(
    index: &[u64],
    cursors: &mut [u64],
    n: usize,
    place: Place,
    other: Option<Run>,
) -> Option<Run>
    requires { Ready index.now cursors.old n }
    ensures piece_or { (f : Locator → Voters) → PieceOr f (as_place place) (as_maybe other) → PieceOr (λ l. united (f l) (named_by index.now cursors.old n l)) (as_place place) (as_maybe result) }
    ensures moved { Moved index.now n (as_place place) cursors.old cursors.new }
{
    let mut piece = other;
    for k in 0..n {
        let found = source_piece(
            index,
            cursors[2 * k] as usize,
            cursors[2 * k + 1] as usize,
            place,
        );
        cursors[2 * k] = found.at as u64;
        cursors[2 * k + 1] = found.left as u64;
        let more = found.piece;
        piece = index_pieces::both(piece, more);
    }
    piece
}

// ---- the sources of a part: one in some words, the block's own votes, and those in the index

// A run of a part, and the piece with which the run after it begins.
#[derive(Clone, Copy)]
pub struct Grown {
    pub run: Run,
    pub next: Option<Run>,
}

// The first piece of a source in some words and of n in the index together, from a place on. The cursors move on.
pub fn next_piece(
    index: &[u64],
    cursors: &mut [u64],
    n: usize,
    own: &[u64],
    mine: &mut [u64],
    place: Place,
) -> Option<Run>
    requires { Ready index.now cursors.old n × Ready own.now mine.old 1 }
    ensures piece_or { PieceOr (together own.now mine.old index.now cursors.old n) (as_place place) (as_maybe result) }
    ensures moved { Moved index.now n (as_place place) cursors.old cursors.new × Moved own.now 1 (as_place place) mine.old mine.new }
{
    let piece = sources_piece(own, mine, 1, place, None);
    sources_piece(index, cursors, n, place, piece)
}

// A run with another end.
fn ended(x: Run, end: u64) -> Run
    ensures { as_run result ≡ ended (as_run x) end }
{
    let block = x.block;
    let votes = x.votes;
    Run {
        block,
        start: x.start,
        end,
        votes,
    }
}

// The run that begins with a piece: on as long as the voters are the same.
pub fn whole_run(
    index: &[u64],
    cursors: &mut [u64],
    n: usize,
    own: &[u64],
    mine: &mut [u64],
    first: Run,
) -> Grown
    requires { Ready index.now cursors.old n × Ready own.now mine.old 1 }
    ensures { GrownFrom own.now mine.old mine.new index.now n cursors.old cursors.new (as_run first) (as_run result.run) (as_maybe result.next) }
{
    let block = first.block;
    let mut end = first.end;
    loop {
        let run = ended(first, end);
        let next = next_piece(index, cursors, n, own, mine, Place::Beyond(block, end));
        let Some(y) = next else {
            return Grown { run, next: None };
        };
        if !index_pieces::continues(run, y) {
            return Grown { run, next: Some(y) };
        }
        end = y.end;
    }
}
