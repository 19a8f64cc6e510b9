// Who votes for a locator, or rejects it, in the ancestry of each stored block, by a walk over the blocks in ascending reference order.
#![tactic(auto)]

ghost use Rattle.std.specs.Prelude.{◌≡◌, true, ◌+◌, ◌*◌, ◌≤◌, ◌<◌, eqb, length};
ghost use Rattle.base.specs.Lists.{pick};
ghost use Rattle.committee_set.specs.AuthoritySet.{nobody, inserted, united};
ghost use Rattle.record_spec.specs.Block.{author};
ghost use Rattle.store_spec.specs.Entry.{block_at, is_entry};
ghost use Rattle.final_block_votes.specs.Walk.{SortedStore};
ghost use Rattle.list_include_sets.specs.Sets.{Included};
ghost use Rattle.list_ancestry.specs.Heard.{with_set, HeardMarked, AnyMarked};

use committee_set::AuthoritySet;

// Whether any of the first n places is marked.
pub fn any_marked(own: &[u64], n: usize) -> bool
    requires { n ≤ length own.now }
    ensures { AnyMarked own.now n result }
{
    for k in 0..n {
        if own[k] == 1 {
            return true;
        }
    }
    false
}

// Those who speak below, and the author of the block at a position if it is marked.
pub fn with_own(store: &[u8], at: usize, mark: u64, below: AuthoritySet) -> AuthoritySet
    requires { (is_entry store.now at ≡ true) × (author (block_at store.now at) < 128) }
    ensures { result ≡ united (pick (eqb mark 1) (inserted nobody (author (block_at store.now at))) nobody) below }
{
    if mark != 1 {
        return committee_set::union(AuthoritySet::new(), below);
    }
    let author = store_entries::author_at(store, at);
    let own = AuthoritySet::new().insert(author);
    committee_set::union(own, below)
}

// Notes who speaks in the ancestry of the block at a place.
pub fn note_set(memo: &mut [u64], k: usize, who: AuthoritySet)
    requires { 2 * k + 1 < length memo.old }
    ensures { memo.new ≡ with_set memo.old k who }
{
    memo[2 * k] = who.low;
    memo[2 * k + 1] = who.high;
}

// Walks over the blocks in ascending reference order: an include stands at a lower place, so it is known who speaks in its ancestry; where a
// block includes what the block before does, nobody else speaks below it.
pub fn spread(store: &[u8], order: &[u64], sets: &[u64], own: &[u64], memo: &mut [u64])
    requires { (SortedStore store.now order.now × (length order.now ≤ 1024)) × ((length own.now ≡ 1024) × ((length memo.old ≡ 2048) × Included store.now order.now sets.now (length order.now))) }
    ensures { HeardMarked store.now order.now own.now memo.new }
{
    let mut below = AuthoritySet::new();
    for k in 0..order.len() {
        let at = order[k] as usize;
        below = list_include_sets::below_at(sets, k, memo, below);
        let who = with_own(store, at, own[k], below);
        note_set(memo, k, who);
    }
}
