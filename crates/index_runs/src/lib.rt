// Runs of the index, and their ten words: read, held against a run, and written.
#![tactic(auto)]

ghost use Rattle.std.specs.Prelude.{◌≡◌, [], ◌∷◌, ◌+◌, ◌≤◌, length, drop};
ghost use Rattle.std.proofs.lemmas.List.Edits.{sets};
ghost use Rattle.types.specs.Values.{digest_bytes};
ghost use Rattle.index_spec.specs.Index.{digest_words, run_words};
ghost use Rattle.index_spec.specs.Walk.{run_from};
ghost use Rattle.index_runs.specs.Values.{as_run, digest_at, starts_with};

use committee::{AuthorityIndex, RoundNumber};
use committee_set::AuthoritySet;
use types::{BlockDigest, BlockReference};

// The words of a run.
pub const RUN_WORDS: usize = 10;

// Offsets of one block with the same voters.
#[derive(Clone, Copy)]
pub struct Run {
    pub block: BlockReference,
    pub start: u64,
    pub end: u64,
    pub votes: AuthoritySet,
}

// From where on runs are asked for: from the start, or from an offset of a block.
#[derive(Clone, Copy)]
pub enum Place {
    Anywhere,
    Beyond(BlockReference, u64),
}

// ---- read

// The digest in the four words at a position.
fn read_digest(index: &[u64], at: usize) -> BlockDigest
    requires { at + 4 ≤ length index.now }
    ensures { digest_bytes result ≡ digest_at index.now at }
{
    let first = index_turned_words::turned(index[at]);
    let second = index_turned_words::turned(index[at + 1]);
    let third = index_turned_words::turned(index[at + 2]);
    let fourth = index_turned_words::turned(index[at + 3]);
    BlockDigest(first, second, third, fourth)
}

// The run in the ten words at a position.
pub fn read_run(index: &[u64], at: usize) -> Run
    requires { at + 10 ≤ length index.now }
    ensures { as_run result ≡ run_from (drop at index.now) }
{
    let authority = AuthorityIndex(index[at]);
    let round = RoundNumber(index[at + 1]);
    let digest = read_digest(index, at + 2);
    let block = BlockReference {
        authority,
        round,
        digest,
    };
    let votes = AuthoritySet {
        low: index[at + 8],
        high: index[at + 9],
    };
    Run {
        block,
        start: index[at + 6],
        end: index[at + 7],
        votes,
    }
}

// ---- held against a run

// Whether the four words at a position are these.
fn stand_at(index: &[u64], at: usize, first: u64, second: u64, third: u64, fourth: u64) -> bool
    requires { at + 4 ≤ length index.now }
    ensures { result ≡ starts_with (first ∷ second ∷ third ∷ fourth ∷ []) (drop at index.now) }
{
    if index[at] != first {
        return false;
    }
    if index[at + 1] != second {
        return false;
    }
    if index[at + 2] != third {
        return false;
    }
    index[at + 3] == fourth
}

// Whether the four words at a position are those of a digest.
fn digest_stands_at(index: &[u64], at: usize, digest: BlockDigest) -> bool
    requires { at + 4 ≤ length index.now }
    ensures { result ≡ starts_with (digest_words (digest_bytes digest)) (drop at index.now) }
{
    let first = index_turned_words::turned(digest.0);
    let second = index_turned_words::turned(digest.1);
    let third = index_turned_words::turned(digest.2);
    let fourth = index_turned_words::turned(digest.3);
    stand_at(index, at, first, second, third, fourth)
}

// Whether the ten words at a position are those of a run.
pub fn stands_at(index: &[u64], at: usize, x: Run) -> bool
    requires { at + 10 ≤ length index.now }
    ensures { result ≡ starts_with (run_words (as_run x)) (drop at index.now) }
{
    let block = x.block;
    let digest = block.digest;
    if index[at] != block.authority.0 {
        return false;
    }
    if index[at + 1] != block.round.0 {
        return false;
    }
    if !digest_stands_at(index, at + 2, digest) {
        return false;
    }
    stand_at(index, at + 6, x.start, x.end, x.votes.low, x.votes.high)
}

// ---- written

// Writes the four words of a digest.
fn write_digest(index: &mut [u64], at: usize, digest: BlockDigest)
    requires { at + 4 ≤ length index.old }
    ensures { index.new ≡ sets index.old at (digest_words (digest_bytes digest)) }
{
    index[at] = index_turned_words::turned(digest.0);
    index[at + 1] = index_turned_words::turned(digest.1);
    index[at + 2] = index_turned_words::turned(digest.2);
    index[at + 3] = index_turned_words::turned(digest.3);
}

// Writes the ten words of a run.
pub fn write_run(index: &mut [u64], at: usize, x: Run)
    requires { at + 10 ≤ length index.old }
    ensures { index.new ≡ sets index.old at (run_words (as_run x)) }
{
    let block = x.block;
    let digest = block.digest;
    index[at] = block.authority.0;
    index[at + 1] = block.round.0;
    write_digest(index, at + 2, digest);
    index[at + 6] = x.start;
    index[at + 7] = x.end;
    index[at + 8] = x.votes.low;
    index[at + 9] = x.votes.high;
}
