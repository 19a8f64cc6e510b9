// One step of the answer to a sorted list of locators: a stored block's part of the index merged with the list.
#![tactic(auto)]

ghost use Rattle.std.specs.Prelude.{◌≡◌, true, false, ◌+◌, ◌*◌, ◌≤◌, ◌<◌, length, drop};
ghost use Rattle.std.proofs.lemmas.List.Edits.{sets};
ghost use Rattle.base.specs.Lists.{pick};
ghost use Rattle.committee.specs.Committee.{broken, total_stake, is_quorum};
ghost use Rattle.committee_set.specs.AuthoritySet.{inserted, stake_of};
ghost use Rattle.record_spec.specs.Block.{Block, author as author_of};
ghost use Rattle.record_spec.specs.Record.{well_formed, block_in};
ghost use Rattle.types.specs.Values.{as_locator};
ghost use Rattle.index_spec.specs.Walk.{part_at};
ghost use Rattle.index_runs.specs.Values.{as_run};
ghost use Rattle.sorted_spec.specs.Sorted.{reply_words, reply_of, asked};
ghost use Rattle.sorted_step.specs.Step.{Beside, reply_from, step_words, SettledReply, Settled, Listed, PartWords};

use committee::{AuthorityIndex, Stake};
use committee_set::AuthoritySet;
use index_runs::Run;
use std::cmp::Ordering;
use types::TransactionLocator;

// How a locator stands to a run.
#[derive(Clone, Copy)]
enum Side {
    Before,
    Inside,
    Past,
}

fn side_of(run: Run, locator: TransactionLocator) -> Side
    ensures { Beside (as_run run) (as_locator locator) result }
{
    let order = types::compare(run.block, locator.block);
    match order {
        Ordering::Less => Side::Past,
        Ordering::Greater => Side::Before,
        Ordering::Equal => {
            if locator.offset < run.start {
                return Side::Before;
            }
            if locator.offset < run.end {
                return Side::Inside;
            }
            Side::Past
        }
    }
}

// 1 where the authors hold quorum, else 0.
fn final_word(stakes: &[u64], total: Stake, authors: AuthoritySet) -> u64
    requires { (broken stakes.now ≡ false) × (total.0 ≡ total_stake stakes.now) }
    ensures { result ≡ pick (is_quorum stakes.now (stake_of stakes.now authors)) 1 0 }
{
    if committee::is_quorum(total, committee_set::stake_of(stakes, authors)) {
        return 1;
    }
    0
}

// Puts a certifying block's author into the reply at an index; one who is there already changes nothing.
fn add_author(stakes: &[u64], total: Stake, author: AuthorityIndex, replies: &mut [u64], i: usize)
    requires { ((broken stakes.now ≡ false) × (total.0 ≡ total_stake stakes.now)) × (((author.0 < 128) × (3 * i + 3 ≤ length replies.old)) × SettledReply stakes.now (drop (3 * i) replies.old)) }
    ensures { replies.new ≡ sets replies.old (3 * i) (reply_words (reply_of stakes.now (inserted (reply_from (drop (3 * i) replies.old)).authors author.0))) }
{
    let at = 3 * i;
    let low = replies[at + 1];
    let high = replies[at + 2];
    let authors = AuthoritySet { low, high };
    if authors.contains(author) {
        return;
    }
    let more = authors.insert(author);
    replies[at] = final_word(stakes, total, more);
    replies[at + 1] = more.low;
    replies[at + 2] = more.high;
}

// Merges the part of an unmarked block with the list: one cursor over its runs and one over the locators, both moved forward only.
fn merge(
    stakes: &[u64],
    total: Stake,
    author: AuthorityIndex,
    part: &[u64],
    locators: &[u8],
    replies: &mut [u64],
)
    requires { ((broken stakes.now ≡ false) × (total.0 ≡ total_stake stakes.now)) × (((author.0 < 128) × PartWords part.now) × (Listed locators.now (asked locators.now) × Settled stakes.now (length (asked locators.now)) replies.old)) }
    ensures { (b : Block) → b.marked ≡ false → author_of b ≡ author.0 → replies.new ≡ step_words stakes.now b (part_at part.now 0) (asked locators.now) replies.old }
{
    let n = locators.len() / types::LOCATOR_BYTES;
    let m = part[0] as usize;
    let mut last = committee_quorum::nobody();
    let mut i: usize = 0;
    let mut j: usize = 0;
    while i < n {
        if j == m {
            // The part is used up: nobody is named from here on.
            return;
        }
        let run = index_runs::read_run(part, index_runs::RUN_WORDS * j + 1);
        let locator = record_reference_bytes::read_locator(locators, types::LOCATOR_BYTES * i);
        let stands = side_of(run, locator);
        match stands {
            Side::Past => {
                j += 1;
            }
            Side::Before => {
                i += 1;
            }
            Side::Inside => {
                let k = i;
                i += 1;
                last = committee_quorum::check(stakes, total, last, run.votes);
                if !last.quorum {
                    continue;
                }
                add_author(stakes, total, author, replies, k);
            }
        }
    }
}

// The step of one stored block: it gets the block's record, its part of the index, the committee (its stakes and their total), the list and
// the replies so far, and nothing else.
pub fn step(
    stakes: &[u64],
    total: Stake,
    rec: &[u8],
    part: &[u64],
    locators: &[u8],
    replies: &mut [u64],
)
    requires { ((broken stakes.now ≡ false) × (total.0 ≡ total_stake stakes.now)) × (((well_formed rec.now ≡ true) × ((author_of (block_in rec.now) < 128) × PartWords part.now)) × (Listed locators.now (asked locators.now) × Settled stakes.now (length (asked locators.now)) replies.old)) }
    ensures { replies.new ≡ step_words stakes.now (block_in rec.now) (part_at part.now 0) (asked locators.now) replies.old }
{
    if record_reader::epoch_changed(rec) {
        return;
    }
    let block = record_reader::reference(rec);
    merge(stakes, total, block.authority, part, locators, replies);
}
