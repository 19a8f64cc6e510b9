// Runs in a row that the sources of a part have next: one that is merged, and those after it that they share; found and written.
#![tactic(auto)]

ghost use Rattle.std.specs.Prelude.{◌≡◌, ◌+◌, ◌*◌, ◌≤◌, ◌<◌, length, take, drop};
ghost use mathlib.Core.List.{map, flatten};
ghost use Rattle.std.proofs.lemmas.List.Edits.{sets};
ghost use Rattle.index_spec.specs.Runs.{Run};
ghost use Rattle.index_spec.specs.Index.{run_words};
ghost use Rattle.index_pieces.specs.Sources.{Ready};
ghost use Rattle.index_runs.specs.Values.{as_run};
ghost use Rattle.index_strides.specs.Strides.{Strode, stride_runs};

use index_runs::Place;

// Runs in a row: one, those after it that stand at a position, and the piece with which the next one begins.
#[derive(Clone, Copy)]
pub struct Stride {
    pub run: index_runs::Run,
    pub pos: usize,
    pub more: usize,
    pub next: Option<index_runs::Run>,
}

// The run that begins with a piece and those after it that the sources share; the cursors then stand past them.
pub fn next_stride(
    index: &[u64],
    cursors: &mut [u64],
    n: usize,
    own: &[u64],
    mine: &mut [u64],
    first: index_runs::Run,
) -> Stride
    requires { Ready index.now cursors.old n × Ready own.now mine.old 1 }
    ensures { Strode own.now mine.old mine.new index.now n cursors.old cursors.new (as_run first) result }
{
    let grown = index_merge::whole_run(index, cursors, n, own, mine, first);
    let run = grown.run;
    let block = run.block;
    let place = Place::Beyond(block, run.end);
    let common = index_shared::pass_common(index, cursors, n, own, mine, place);
    if common.runs == 0 {
        let next = grown.next;
        return Stride {
            run,
            pos: common.pos,
            more: 0,
            next,
        };
    }
    let after = common.place;
    let next = index_merge::next_piece(index, cursors, n, own, mine, after);
    Stride {
        run,
        pos: common.pos,
        more: common.runs,
        next,
    }
}

// Copies so many words to a position past them.
fn copy_on(index: &mut [u64], from: usize, to: usize, count: usize)
    requires { (from + count ≤ to) × (to + count ≤ length index.old) }
    ensures { index.new ≡ sets index.old to (take count (drop from index.old)) }
{
    for i in 0..count {
        index[to + i] = index[from + i];
    }
}

// Writes runs in a row to a position past those that stand in the index.
pub fn write_stride(index: &mut [u64], at: usize, runs: Stride)
    requires { (runs.pos + 10 * runs.more ≤ at) × (at + 10 * (runs.more + 1) ≤ length index.old) }
    ensures { index.new ≡ sets index.old at (flatten (map run_words (stride_runs index.old runs))) }
{
    let run = runs.run;
    index_runs::write_run(index, at, run);
    copy_on(
        index,
        runs.pos,
        at + index_runs::RUN_WORDS,
        index_runs::RUN_WORDS * runs.more,
    );
}
