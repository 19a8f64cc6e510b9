// An index as it is lent: whether it agrees with the store (54), and the refusals with which every question with it begins (5, 10, 54).
#![tactic(auto)]

ghost use Rattle.std.specs.Prelude.{◌≡◌, true, ◌≤◌, length, take, IfOk};
ghost use Rattle.base.specs.Checks.{refusal};
ghost use Rattle.base.specs.Refusals.{refusal_in};
ghost use Rattle.final_spec.specs.Finality.{blocks_of};
ghost use Rattle.final_block_votes.specs.Walk.{SortedStore};
ghost use Rattle.index_spec.specs.Index.{used_part, index_agrees};
ghost use Rattle.index_list_spec.specs.Indexed.{indexed_checks};
ghost use Rattle.index_check.specs.Known.{Known};
ghost use Rattle.index_lent.specs.Lent.{used_in, Asked};

use base::Refusal;
use committee::Stake;

// What a question with the index begins with: the total stake and how many blocks are stored.
#[derive(Clone, Copy)]
pub struct Question {
    pub total: Stake,
    pub count: usize,
}

// How many words are used: what the first one says, if there are so many; else none.
pub fn used_words(index: &[u64]) -> usize
    ensures { result ≡ used_in index.now }
{
    if index.len() == 0 {
        return 0;
    }
    let used = index[0];
    if (index.len() as u64) < used {
        return 0;
    }
    used as usize
}

// Whether the index agrees with a store in order, whose sorted positions are lent; where it does, `starts` has for each of them where its part stands.
pub fn agrees(store: &[u8], order: &[u64], index: &[u64], starts: &mut [u64]) -> bool
    requires { SortedStore store.now order.now × (length order.now ≤ length starts.old) }
    ensures value { result ≡ index_agrees (blocks_of store.now) index.now }
    ensures known { result ≡ true → Known store.now order.now (used_part index.now) starts.new (blocks_of store.now) }
{
    let used = used_words(index);
    index_check::index_agrees(store, order, &index[..used], starts)
}

// 5, 10, 54; where none applies, `order` and `starts` say in what order the blocks are sorted and where their parts stand.
pub fn question_refusal(
    stakes: &[u64],
    store: &[u8],
    index: &[u64],
    order: &mut [u64],
    starts: &mut [u64],
) -> Result<Question, Refusal>
    requires { (1024 ≤ length order.old) × (1024 ≤ length starts.old) }
    ensures refusal_value { refusal_in result ≡ refusal (indexed_checks stakes.now store.now index.now) }
    ensures count_bound { IfOk result (λ asked. (asked.count ≤ 1024) × Asked stakes.now store.now index.now asked.total.0 (take asked.count order.new) starts.new) }
{
    let Ok(total) = committee::new_committee(stakes) else {
        return Err(Refusal::BrokenCommittee);
    };
    if !store_order::in_order(stakes, store) {
        return Err(Refusal::StoreNotInOrder);
    }
    let count = final_block_votes::sorted_positions(store, order);
    if !agrees(store, &order[..count], index, starts) {
        return Err(Refusal::IndexDisagrees);
    }
    Ok(Question { total, count })
}

// The first of 5, 10, 54 that applies.
pub fn indexed_refusal(stakes: &[u64], store: &[u8], index: &[u64]) -> Result<(), Refusal>
    ensures { refusal_in result ≡ refusal (indexed_checks stakes.now store.now index.now) }
{
    let mut order = [0u64; types::MAX_BLOCKS];
    let mut starts = [0u64; types::MAX_BLOCKS];
    question_refusal(stakes, store, index, &mut order, &mut starts)?;
    Ok(())
}
