// What the block of a record votes for, as runs of its author in words: a part like those of its includes. They ascend, and none touches another.
#![tactic(auto)]

ghost use Rattle.std.specs.Prelude.{◌≡◌, map, ◌*◌, ◌≤◌, length};
ghost use Rattle.base.proofs.Lists.{Every};
ghost use Rattle.record_spec.specs.Record.{block_in};
ghost use Rattle.list_row_sort.specs.Rows.{rows_of};
ghost use Rattle.list_range_rows.specs.Ranges.{Proper};
ghost use Rattle.index_spec.specs.Walk.{runs_from};
ghost use Rattle.index_own_runs.specs.Own.{Voting, row_run, OwnRuns};

use committee_set::AuthoritySet;
use index_runs::Run;
use list_kind_ranges::RangeKind;

// Words for a row, and for a run, of each of 1,024 statements.
pub const ROWS_WORDS: usize = 3072;

pub const RUNS_WORDS: usize = 10240;

// Writes the first m rows of a table, whose references stand in a record, as runs of these voters.
fn write_runs(rec: &[u8], rows: &[u64], m: usize, votes: AuthoritySet, words: &mut [u64])
    requires { Every (Proper rec.now) (rows_of rows.now m) × ((3 * m ≤ length rows.now) × (10 * m ≤ length words.old)) }
    ensures words_len_unchanged { length words.new ≡ length words.old }
    ensures words_after { runs_from m words.new ≡ map (row_run rec.now votes) (rows_of rows.now m) }
{
    for i in 0..m {
        let from = list_row_sort::ROW_WORDS * i;
        let block = record_reference_bytes::read_reference(rec, rows[from] as usize);
        let run = Run {
            block,
            start: rows[from + 1],
            end: rows[from + 2],
            votes,
        };
        index_runs::write_run(words, index_runs::RUN_WORDS * i, run);
    }
}

// Writes what a record's block votes for to the front of the words, and answers how many runs. The rows hold anything afterwards.
pub fn own_runs(rec: &[u8], rows: &mut [u64], words: &mut [u64]) -> usize
    requires { Voting rec.now × ((3072 ≤ length rows.old) × (10240 ≤ length words.old)) }
    ensures rows_len_unchanged { (length rows.new ≡ length rows.old) × (length words.new ≡ length words.old) }
    ensures own_runs { OwnRuns (block_in rec.now) words.new result }
{
    let all = None;
    let m = list_own_ranges::own_ranges(rec, 0, rec, RangeKind::Votes, all, all, rows, words);
    let block = record_reader::reference(rec);
    let votes = AuthoritySet::new().insert(block.authority);
    write_runs(rec, rows, m, votes, words);
    m
}
