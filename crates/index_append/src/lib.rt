// The part that a block's own votes, in words of their own, and the parts of its includes make, appended to the index.
#![tactic(auto)]

ghost use Rattle.std.specs.Prelude.{◌≡◌, ◌+◌, ◌*◌, ◌≤◌, ◌<◌, List, length, take, set};
ghost use Rattle.std.proofs.lemmas.List.Edits.{sets};
ghost use Rattle.index_spec.specs.Runs.{Run};
ghost use Rattle.index_spec.specs.Part.{RunsOf};
ghost use Rattle.index_spec.specs.Index.{part_words};
ghost use Rattle.index_pieces.specs.Sources.{Ready, together};

use index_runs::Place;

// Appends that part, of so many runs, after the used words, and counts them as used. The sources in the index lie in the used words.
pub fn append_part(
    index: &mut [u64],
    used: usize,
    cursors: &mut [u64],
    n: usize,
    own: &[u64],
    mine: &mut [u64],
    count: usize,
)
    requires sources { Ready (take used index.old) cursors.old n × Ready own.now mine.old 1 }
    requires room { (0 < used) × (used + 1 + 10 * count ≤ length index.old) }
    ensures { (xs : List Run) → RunsOf (together own.now mine.old (take used index.old) cursors.old n) xs → length xs ≡ count → index.new ≡ set (sets index.old used (part_words xs)) 0 (used + length (part_words xs)) }
{
    index[used] = count as u64;
    let mut next = index_merge::next_piece(&index[..used], cursors, n, own, mine, Place::Anywhere);
    let mut k: usize = 0;
    while k < count {
        let Some(x) = next else {
            // Never so: there are so many runs.
            return;
        };
        let runs = index_strides::next_stride(&index[..used], cursors, n, own, mine, x);
        if count - k <= runs.more {
            // Never so: there are no more runs.
            return;
        }
        index_strides::write_stride(index, used + 1 + index_runs::RUN_WORDS * k, runs);
        next = runs.next;
        k = k + 1 + runs.more;
    }
    index[0] = (used + 1 + index_runs::RUN_WORDS * count) as u64;
}
