// Who votes for a locator in a stored block's ancestry, or who rejects it: reading a block first reads its includes, and remembers what was read.
// Follows finalization_interpreter.rs; the Rust asks for votes alone.
#![tactic(auto)]

ghost use Rattle.std.specs.Prelude.{◌≡◌, map, ◌+◌, ◌*◌, ◌≤◌, ◌<◌, eqb, length, get_or};
ghost use Rattle.types.specs.Values.{as_locator};
ghost use Rattle.final_spec.specs.Voters.{unions, spoken};
ghost use Rattle.final_spec.specs.Finality.{blocks_of};
ghost use Rattle.final_block_votes.specs.Walk.{SortedStore, block_at_place};
ghost use Rattle.final_readings_spec.specs.Answers.{is_rejecting};
ghost use Rattle.final_block_rejects.specs.Speeches.{speech_of};
ghost use Rattle.final_voters.specs.Walk.{spoken_at, remembered, noted, Remembers, RemembersBoth};

use committee_set::AuthoritySet;
use final_readings_spec::Speech;
use types::TransactionLocator;

// A memory has three words for each of 1,024 blocks; one for votes and rejects, in this order, is twice as long.
const MEMORY_WORDS: usize = 3072;

pub const BOTH_WORDS: usize = 6144;

// Whether it is remembered who speaks in the ancestry of the block at a place.
fn is_known(memo: &[u64], k: usize) -> bool
    requires { 3 * k + 2 < length memo.now }
    ensures { result ≡ eqb (get_or memo.now (3 * k + 2) 0) 1 }
{
    memo[3 * k + 2] == 1
}

// What is remembered of the block at a place.
fn recall(memo: &[u64], k: usize) -> AuthoritySet
    requires { 3 * k + 2 < length memo.now }
    ensures { result ≡ remembered memo.now k }
{
    AuthoritySet {
        low: memo[3 * k],
        high: memo[3 * k + 1],
    }
}

// Remembers who speaks in the ancestry of the block at a place.
fn remember(memo: &mut [u64], k: usize, who: AuthoritySet)
    requires { 3 * k + 2 < length memo.old }
    ensures { memo.new ≡ noted memo.old k who }
{
    memo[3 * k] = who.low;
    memo[3 * k + 1] = who.high;
    memo[3 * k + 2] = 1;
}

// Who votes for the locator in the ancestry of the block at a place, or who rejects it there.
#[cycle(visit_visit_includes)]
fn visit(
    store: &[u8],
    order: &[u64],
    locator: TransactionLocator,
    speech: Speech,
    k: usize,
    memo: &mut [u64],
) -> AuthoritySet
    requires { (SortedStore store.now order.now × (k < length order.now)) × ((3 * length order.now ≤ length memo.old) × Remembers (speech_of (is_rejecting speech)) store.now order.now (as_locator locator) memo.old) }
    ensures value { result ≡ spoken_at (speech_of (is_rejecting speech)) store.now order.now (as_locator locator) k }
    ensures remembers { Remembers (speech_of (is_rejecting speech)) store.now order.now (as_locator locator) memo.new }
{
    if is_known(memo, k) {
        return recall(memo, k);
    }
    let below = visit_includes(store, order, locator, speech, k, memo);
    let own = final_block_rejects::own_at(store, order[k] as usize, locator, speech);
    let all = committee_set::union(own, below);
    remember(memo, k, all);
    all
}

// The same for the includes of the block at a place. An include has a lower round, so it stands at a lower place.
#[cycle(visit_visit_includes)]
fn visit_includes(
    store: &[u8],
    order: &[u64],
    locator: TransactionLocator,
    speech: Speech,
    k: usize,
    memo: &mut [u64],
) -> AuthoritySet
    requires { (SortedStore store.now order.now × (k < length order.now)) × ((3 * length order.now ≤ length memo.old) × Remembers (speech_of (is_rejecting speech)) store.now order.now (as_locator locator) memo.old) }
    ensures value { result ≡ unions (map (spoken (speech_of (is_rejecting speech)) (blocks_of store.now) (as_locator locator)) (block_at_place store.now order.now k).includes) }
    ensures remembers { Remembers (speech_of (is_rejecting speech)) store.now order.now (as_locator locator) memo.new }
{
    let at = order[k] as usize;
    let count = final_block_votes::include_count_at(store, at);
    let mut found = AuthoritySet::new();
    for j in 0..count {
        let i = final_block_votes::place_of(
            store,
            order,
            final_block_votes::include_at(store, at, j),
        );
        found = committee_set::union(found, visit(store, order, locator, speech, i, memo));
    }
    found
}

// Who votes for the locator in the ancestry of the block at a place, or who rejects it there, with one memory for both.
pub fn speakers_at(
    store: &[u8],
    order: &[u64],
    locator: TransactionLocator,
    speech: Speech,
    k: usize,
    memo: &mut [u64],
) -> AuthoritySet
    requires { (SortedStore store.now order.now × (k < length order.now)) × RemembersBoth store.now order.now (as_locator locator) memo.old }
    ensures value { result ≡ spoken_at (speech_of (is_rejecting speech)) store.now order.now (as_locator locator) k }
    ensures remembers_both { RemembersBoth store.now order.now (as_locator locator) memo.new }
{
    match speech {
        Speech::Votes => visit(store, order, locator, speech, k, &mut memo[0..MEMORY_WORDS]),
        Speech::Rejects => visit(
            store,
            order,
            locator,
            speech,
            k,
            &mut memo[MEMORY_WORDS..BOTH_WORDS],
        ),
    }
}
