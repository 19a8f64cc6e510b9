// The part that a block's own votes, in words of their own, and the parts of its includes make: held against words, and counted.
#![tactic(auto)]

ghost use Rattle.std.specs.Prelude.{◌≡◌, ◌+◌, ◌*◌, ◌≤◌, ◌<◌, List, length};
ghost use Rattle.index_spec.specs.Runs.{Run};
ghost use Rattle.index_spec.specs.Part.{RunsOf};
ghost use Rattle.index_pieces.specs.Sources.{Ready, together};
ghost use Rattle.index_runs.specs.Values.{as_maybe, as_place};
ghost use Rattle.index_parts.specs.Parts.{StandsNext, StandsOn, Compared, Counted};

use index_cursors::Spot;
use index_runs::Place;

// The next run of the sources from a place on, merged, if it stands at a position; the cursors then stand past it.
fn merged_stands(
    index: &[u64],
    cursors: &mut [u64],
    n: usize,
    own: &[u64],
    mine: &mut [u64],
    place: Place,
    pos: usize,
) -> Option<index_runs::Run>
    requires { (Ready index.now cursors.old n × Ready own.now mine.old 1) × (pos + 10 ≤ length index.now) }
    ensures { StandsNext own.now mine.old mine.new index.now n cursors.old cursors.new (as_place place) pos (as_maybe result) }
{
    let next = index_merge::next_piece(index, cursors, n, own, mine, place);
    let Some(x) = next else {
        return None;
    };
    let grown = index_merge::whole_run(index, cursors, n, own, mine, x);
    let run = grown.run;
    if !index_runs::stands_at(index, pos, run) {
        return None;
    }
    Some(run)
}

// The same, without a merge where each source meets the run.
fn next_stands(
    index: &[u64],
    cursors: &mut [u64],
    ahead: &mut [u64],
    n: usize,
    own: &[u64],
    mine: &mut [u64],
    place: Place,
    pos: usize,
) -> Option<index_runs::Run>
    requires sources { Ready index.now cursors.old n × Ready own.now mine.old 1 }
    requires room { (pos + 10 ≤ length index.now) × ((length ahead.old ≡ length cursors.old) × (length mine.old ≡ 2)) }
    ensures { StandsNext own.now mine.old mine.new index.now n cursors.old cursors.new (as_place place) pos (as_maybe result) }
{
    if index_meeting::run_meets(index, cursors, ahead, n, own, mine, place, pos) {
        return Some(index_runs::read_run(index, pos));
    }
    merged_stands(index, cursors, n, own, mine, place, pos)
}

// Holds the words at a spot against the next run of the sources; past it they pass what they share. None if it does not stand there.
fn stand_on(
    index: &[u64],
    cursors: &mut [u64],
    ahead: &mut [u64],
    n: usize,
    own: &[u64],
    mine: &mut [u64],
    spot: Spot,
) -> Option<Spot>
    requires sources { Ready index.now cursors.old n × Ready own.now mine.old 1 }
    requires room { ((0 < spot.left) × (spot.pos + 10 * spot.left ≤ length index.now)) × ((length ahead.old ≡ length cursors.old) × (length mine.old ≡ 2)) }
    ensures { StandsOn own.now mine.old mine.new index.now n cursors.old cursors.new spot result }
{
    let place = spot.place;
    let pos = spot.pos;
    let found = next_stands(index, cursors, ahead, n, own, mine, place, pos);
    let Some(x) = found else {
        return None;
    };
    let block = x.block;
    let next = Spot {
        place: Place::Beyond(block, x.end),
        pos: pos + index_runs::RUN_WORDS,
        left: spot.left - 1,
    };
    let more = index_shared::pass_shared(index, cursors, n, own, mine, next);
    Some(index_cursors::spot_after(index, next, more))
}

// Holds the words from a position on against the part of a source in some words and n in the index, and answers where the part ends; none if they
// are not those of the part. `ahead` is as long as their cursors.
pub fn part_end(
    index: &[u64],
    cursors: &mut [u64],
    ahead: &mut [u64],
    n: usize,
    own: &[u64],
    mine: &mut [u64],
    at: usize,
) -> Option<usize>
    requires sources { Ready index.now cursors.old n × Ready own.now mine.old 1 }
    requires room { (length ahead.old ≡ length cursors.old) × (length mine.old ≡ 2) }
    ensures { (xs : List Run) → RunsOf (together own.now mine.old index.now cursors.old n) xs → Compared index.now at xs result }
{
    if index.len() <= at {
        return None;
    }
    let room = (index.len() - at - 1) / index_runs::RUN_WORDS;
    if (room as u64) < index[at] {
        return None;
    }
    let mut spot = Spot {
        place: Place::Anywhere,
        pos: at + 1,
        left: index[at] as usize,
    };
    while 0 < spot.left {
        let stood = stand_on(index, cursors, ahead, n, own, mine, spot);
        let Some(next) = stood else {
            return None;
        };
        spot = next;
    }
    let place = spot.place;
    let next = index_merge::next_piece(index, cursors, n, own, mine, place);
    let Some(_) = next else {
        return Some(spot.pos);
    };
    None
}

// The number of runs of that part; none if it is above a limit.
pub fn run_count(
    index: &[u64],
    cursors: &mut [u64],
    n: usize,
    own: &[u64],
    mine: &mut [u64],
    most: usize,
) -> Option<usize>
    requires { Ready index.now cursors.old n × Ready own.now mine.old 1 }
    ensures { (xs : List Run) → RunsOf (together own.now mine.old index.now cursors.old n) xs → Counted most xs result }
{
    let mut next = index_merge::next_piece(index, cursors, n, own, mine, Place::Anywhere);
    let mut k: usize = 0;
    loop {
        let Some(x) = next else {
            return Some(k);
        };
        let runs = index_strides::next_stride(index, cursors, n, own, mine, x);
        if most - k <= runs.more {
            return None;
        }
        next = runs.next;
        k = k + 1 + runs.more;
    }
}
