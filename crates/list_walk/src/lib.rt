// The blocks that certify a locator in either reading of a reject, by walks over the stored blocks in ascending reference order.
#![tactic(auto)]

ghost use Rattle.std.specs.Prelude.{◌≡◌, true, false, not, ◌&&◌, ◌+◌, ◌*◌, ◌≤◌, ◌<◌, length};
ghost use Rattle.base.specs.Lists.{pick};
ghost use Rattle.committee.specs.Committee.{total_stake};
ghost use Rattle.store_spec.specs.Entry.{block_at, is_entry};
ghost use Rattle.final_block_votes.specs.Walk.{Sorted};
ghost use Rattle.list_includes_spec.specs.Places.{set_at};
ghost use Rattle.list_include_sets.specs.Sets.{Included};
ghost use Rattle.list_walk.specs.Walk.{any_noted, counted, Skipped, SameWords, CertifyMarked};

use committee::Stake;
use committee_set::AuthoritySet;
use final_certifying::Certifiers;

// ---- who certifies

// Whether the block at a position certifies, where its voters hold quorum or not.
fn certifies_at(store: &[u8], at: usize, quorum: bool) -> bool
    requires { is_entry store.now at ≡ true }
    ensures { result ≡ not (block_at store.now at).marked && quorum }
{
    if final_block_votes::epoch_changed_at(store, at) {
        return false;
    }
    quorum
}

// A word for a test.
fn flag(yes: bool) -> u64
    ensures { result ≡ pick yes 1 0 }
{
    if yes {
        return 1;
    }
    0
}

// Those who vote, less those who reject in the ancestry of the block at a place; without words for these nobody rejects.
fn counted_at(voters: AuthoritySet, rejecters: &[u64], k: usize) -> AuthoritySet
    requires { (k < 1024) × (any_noted rejecters.now ≡ true → 2 * k + 1 < length rejecters.now) }
    ensures { result ≡ counted (any_noted rejecters.now) voters (set_at rejecters.now k) }
{
    if rejecters.len() == 0 {
        return voters;
    }
    let gone = AuthoritySet {
        low: rejecters[2 * k],
        high: rejecters[2 * k + 1],
    };
    committee_set::less(voters, gone)
}

// The first marked place, or the number of blocks where none is. Writes 0 for each place before it: nobody votes in the ancestry of its block.
fn skip(own: &[u64], n: usize, certified: &mut [u64]) -> usize
    requires { (n ≤ length own.now) × (n ≤ length certified.old) }
    ensures { Skipped own.now n certified.old certified.new result }
{
    let mut k: usize = 0;
    while k < n {
        if own[k] == 1 {
            return k;
        }
        certified[k] = 0;
        k += 1;
    }
    k
}

// Walks over the blocks in ascending reference order from the first that votes: an include stands at a lower place, so its voters are known,
// and a block that includes what the block before does has the same voters below it. Of each block it is marked whether it votes, and known
// who rejects in its ancestry, or that nobody does anywhere. Writes 1 for each block that certifies, and 0 for each other one.
pub fn walk(
    stakes: &[u64],
    total: Stake,
    store: &[u8],
    order: &[u64],
    sets: &[u64],
    own: &[u64],
    rejecters: &[u64],
    certified: &mut [u64],
) -> Certifiers
    requires { (((Sorted stakes.now store.now order.now × (total.0 ≡ total_stake stakes.now)) × (length order.now ≤ 1024)) × (length certified.old ≡ 1024)) × (((length own.now ≡ 1024) × Included store.now order.now sets.now (length order.now)) × (any_noted rejecters.now ≡ true → length rejecters.now ≡ 2048)) }
    ensures { CertifyMarked (any_noted rejecters.now) stakes.now store.now order.now own.now rejecters.now certified.new result }
{
    let mut memo = [0u64; 2048];
    let mut authors = AuthoritySet::new();
    let mut below = AuthoritySet::new();
    let mut blocks: usize = 0;
    let mut checked = committee_quorum::nobody();
    let first = skip(own, order.len(), certified);
    for k in first..order.len() {
        let at = order[k] as usize;
        below = list_include_sets::below_at(sets, k, &memo, below);
        let voters = list_ancestry::with_own(store, at, own[k], below);
        list_ancestry::note_set(&mut memo, k, voters);
        checked = committee_quorum::check(stakes, total, checked, counted_at(voters, rejecters, k));
        let yes = certifies_at(store, at, checked.quorum);
        certified[k] = flag(yes);
        if !yes {
            continue;
        }
        blocks += 1;
        let author = store_entries::author_at(store, at);
        authors = authors.insert(author);
    }
    Certifiers { blocks, authors }
}

// ---- what changes from one locator to the next

// Whether two lists have the same first n words.
pub fn same_words(a: &[u64], b: &[u64], n: usize) -> bool
    requires { (n ≤ length a.now) × (n ≤ length b.now) }
    ensures { SameWords a.now b.now n result }
{
    for k in 0..n {
        if a[k] != b[k] {
            return false;
        }
    }
    true
}
