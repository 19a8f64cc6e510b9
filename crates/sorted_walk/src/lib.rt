// A sorted list of locators answered with the index: the form of the list (62), and one step for each stored block in order of arrival.
#![tactic(auto)]

ghost use Rattle.std.specs.Prelude.{◌≡◌, true, false, map, ◌*◌, ◌≤◌, length, replicate};
ghost use Rattle.base.specs.Lists.{holds};
ghost use Rattle.committee.specs.Committee.{broken, total_stake};
ghost use Rattle.store_spec.specs.Store.{records_of, store_in_order};
ghost use Rattle.final_spec.specs.Finality.{blocks_of};
ghost use Rattle.index_spec.specs.Index.{indexed, index_agrees};
ghost use Rattle.sorted_spec.specs.Sorted.{single_reply, first_blocks, replies_after, sorted_locators, locators_of, asked};
ghost use Rattle.sorted_step.specs.Step.{replies_words, Listed};

use committee::Stake;

// ---- the list

// Whether bytes are whole locators that ascend; equal ones may follow each other.
pub fn is_sorted_list(locators: &[u8]) -> bool
    ensures { result ≡ holds sorted_locators (locators_of locators.now) }
{
    if locators.len() % types::LOCATOR_BYTES != 0 {
        return false;
    }
    let n = locators.len() / types::LOCATOR_BYTES;
    for i in 1..n {
        let last = record_reference_bytes::read_locator(locators, types::LOCATOR_BYTES * (i - 1));
        let next = record_reference_bytes::read_locator(locators, types::LOCATOR_BYTES * i);
        if types::locator_before(next, last) {
            return false;
        }
    }
    true
}

// ---- the steps

// No author certifies yet.
fn clear(replies: &mut [u64])
    ensures { replies.new ≡ replicate (length replies.old) 0 }
{
    replies.fill(0);
}

// One step for each of the first stored blocks in order of arrival: its record and its part stand where those before it end. After so many steps the
// replies are those that the single question finds for these blocks alone.
fn step_all(
    stakes: &[u64],
    total: Stake,
    store: &[u8],
    index: &[u64],
    locators: &[u8],
    steps: usize,
    replies: &mut [u64],
)
    requires { (((broken stakes.now ≡ false) × (total.0 ≡ total_stake stakes.now)) × ((store_in_order stakes.now store.now ≡ true) × (index_agrees (blocks_of store.now) index.now ≡ true))) × ((Listed locators.now (asked locators.now) × (steps ≤ length (records_of store.now))) × (replies.old ≡ replicate (3 * length (asked locators.now)) 0)) }
    ensures { replies.new ≡ replies_words (map (single_reply stakes.now (first_blocks steps (blocks_of store.now))) (asked locators.now)) }
{
    let mut at: usize = 16;
    let mut p: usize = 1;
    for k in 0..steps {
        let from = at + 8;
        let end = store_entries::record_end(store, at);
        let next = p + 1 + index_runs::RUN_WORDS * (index[p] as usize);
        sorted_step::step(
            stakes,
            total,
            &store[from..end],
            &index[p..next],
            locators,
            replies,
        );
        at = end;
        p = next;
    }
}

// The replies to the locators of a sorted list, three words each.
pub fn replies_of(
    stakes: &[u64],
    total: Stake,
    store: &[u8],
    index: &[u64],
    locators: &[u8],
    replies: &mut [u64],
)
    requires { (((broken stakes.now ≡ false) × (total.0 ≡ total_stake stakes.now)) × ((store_in_order stakes.now store.now ≡ true) × (index_agrees (blocks_of store.now) index.now ≡ true))) × ((holds sorted_locators (locators_of locators.now) ≡ true) × (length replies.old ≡ 3 * length (asked locators.now))) }
    ensures { replies.new ≡ replies_words (replies_after stakes.now (asked locators.now) (indexed (blocks_of store.now))) }
{
    clear(replies);
    let count = base::read_u16(store, 8) as usize;
    step_all(stakes, total, store, index, locators, count, replies);
}
