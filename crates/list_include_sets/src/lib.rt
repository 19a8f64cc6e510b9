// The includes of the stored blocks as sets of places, and who speaks in the ancestry of a block's includes. A block has 17 words: 16 of
// 64 bits for the places of its includes, and 1 in the last where they are the places of the includes of the block before.
#![tactic(auto)]

ghost use Rattle.std.specs.Prelude.{◌≡◌, ℕ, ◌+◌, ◌*◌, ◌^◌, ◌≤◌, ◌<◌, eqb, length, get_or};
ghost use Rattle.base.specs.Lists.{pick};
ghost use Rattle.committee_set.specs.AuthoritySet.{nobody, united};
ghost use Rattle.final_block_votes.specs.Walk.{SortedStore, block_at_place};
ghost use Rattle.list_includes_spec.specs.Places.{set_at};
ghost use Rattle.list_include_sets.specs.Sets.{with_place, NotedRow, SameBefore, Included, gathered_to, taken};

use committee_set::AuthoritySet;

// The words of a block.
const ROW: usize = 17;

// The words of 1,024 blocks.
pub const WORDS: usize = 17408;

// ---- which places

// The word with bit i alone.
fn mask(i: usize) -> u64
    requires { i < 64 }
    ensures { result ≡ 2 ^ i }
{
    1u64 << i
}

// Puts a place into the set of block k.
fn put(sets: &mut [u64], k: usize, p: usize)
    requires { (p < 1024) × (17 * k + 16 < length sets.old) }
    ensures { sets.new ≡ with_place sets.old k p }
{
    let w = ROW * k + p / 64;
    sets[w] = sets[w] | mask(p % 64);
}

// Puts the places of the includes of block k into its set, which is empty.
fn note_block(store: &[u8], order: &[u64], k: usize, sets: &mut [u64])
    requires { (SortedStore store.now order.now × (length order.now ≤ 1024)) × ((k < length order.now) × ((17 * length order.now ≤ length sets.old) × ((x : ℕ) → 17 * k ≤ x → get_or sets.old x 0 ≡ 0))) }
    ensures { NotedRow store.now order.now k (length (block_at_place store.now order.now k).includes) sets.old sets.new }
{
    let at = order[k] as usize;
    let count = final_block_votes::include_count_at(store, at);
    for j in 0..count {
        let include = final_block_votes::include_at(store, at, j);
        put(sets, k, final_block_votes::place_of(store, order, include));
    }
}

// 1 where the set of block k is the one of the block before.
fn same_before(sets: &[u64], k: usize) -> u64
    requires { 17 * k + 16 < length sets.now }
    ensures { result ≡ 1 → SameBefore sets.now k }
{
    if k == 0 {
        return 0;
    }
    for w in 0..16 {
        if sets[ROW * k + w] != sets[ROW * (k - 1) + w] {
            return 0;
        }
    }
    1
}

// Writes the sets of the places of the includes, block by block in ascending reference order.
pub fn note_includes(store: &[u8], order: &[u64], sets: &mut [u64])
    requires { (SortedStore store.now order.now × (length order.now ≤ 1024)) × ((17 * length order.now ≤ length sets.old) × ((x : ℕ) → get_or sets.old x 0 ≡ 0)) }
    ensures { Included store.now order.now sets.new (length order.now) }
{
    for k in 0..order.len() {
        note_block(store, order, k, sets);
        sets[ROW * k + 16] = same_before(sets, k);
    }
}

// ---- who speaks below

// With the set of a place, where its bit is set.
fn with_place(found: AuthoritySet, memo: &[u64], p: usize, bit: u64) -> AuthoritySet
    requires { (p < 1024) × (length memo.now ≡ 2048) }
    ensures { result ≡ united found (pick (eqb bit 1) (set_at memo.now p) nobody) }
{
    if bit != 1 {
        return found;
    }
    let low = memo[2 * p];
    let high = memo[2 * p + 1];
    committee_set::union(found, AuthoritySet { low, high })
}

// With the sets of the places below 64 * i, those of the 64 places of the word i of block k.
fn gather_word(sets: &[u64], k: usize, i: usize, memo: &[u64], below: AuthoritySet) -> AuthoritySet
    requires { ((i < 16) × (17 * k + 16 < length sets.now)) × ((length memo.now ≡ 2048) × (below ≡ gathered_to sets.now memo.now k (64 * i))) }
    ensures { result ≡ gathered_to sets.now memo.now k (64 * i + 64) }
{
    let mut found = below;
    let mut w = sets[ROW * k + i];
    let mut b: usize = 0;
    while w != 0 {
        found = with_place(found, memo, 64 * i + b, w % 2);
        w /= 2;
        b += 1;
    }
    found
}

// Who speaks in the ancestry of the blocks at the places of the set of block k, two words a place.
fn gather(sets: &[u64], k: usize, memo: &[u64]) -> AuthoritySet
    requires { (17 * k + 16 < length sets.now) × (length memo.now ≡ 2048) }
    ensures { result ≡ gathered_to sets.now memo.now k 1024 }
{
    let mut found = AuthoritySet::new();
    for i in 0..16 {
        found = gather_word(sets, k, i, memo, found);
    }
    found
}

// The same, where it is known who speaks below the block before.
pub fn below_at(sets: &[u64], k: usize, memo: &[u64], last: AuthoritySet) -> AuthoritySet
    requires { (17 * k + 16 < length sets.now) × (length memo.now ≡ 2048) }
    ensures { result ≡ taken sets.now memo.now k last }
{
    if sets[ROW * k + 16] == 1 {
        return last;
    }
    gather(sets, k, memo)
}
