// A sorted list of locators answered in one pass with the index.
#![tactic(auto)]

ghost use Rattle.std.specs.Prelude.{◌≡◌};
ghost use Rattle.sorted_spec.specs.Sorted.{answer_sorted};
ghost use Rattle.sorted_question.specs.Answers.{as_sorted};

use base::Refusal;

// The replies to an ascending list of locators, 56 bytes each, equal ones included: three words each at the front of `replies`, 1 if final,
// else 0, and the authors of its certifying blocks, low and high. The words past them stay (5, 10, 54, 62, 63).
pub fn answer_sorted(
    stakes: &[u64],
    store: &[u8],
    index: &[u64],
    locators: &[u8],
    replies: &mut [u64],
) -> Result<u64, Refusal>
    ensures result_value { as_sorted result ≡ (answer_sorted stakes.now store.now index.now locators.now replies.old).answer }
    ensures replies_after { replies.new ≡ (answer_sorted stakes.now store.now index.now locators.now replies.old).out }
{
    let mut order = [0u64; types::MAX_BLOCKS];
    let mut starts = [0u64; types::MAX_BLOCKS];
    let question = index_lent::question_refusal(stakes, store, index, &mut order, &mut starts)?;
    let total = question.total;
    let sorted = sorted_walk::is_sorted_list(locators);
    let count = locators.len() / types::LOCATOR_BYTES;
    let words = 3 * count;
    let short = replies.len() < words;
    if !sorted {
        return Err(Refusal::LocatorsNotSorted);
    }
    if short {
        return Err(Refusal::RepliesTooShort);
    }
    sorted_walk::replies_of(stakes, total, store, index, locators, &mut replies[..words]);
    Ok(count as u64)
}
