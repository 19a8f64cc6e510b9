// A word for each stored block that marks a share of it by the offset and one more, and is taken away where a stretch covers the share.
#![tactic(auto)]

ghost use Rattle.std.specs.Prelude.{◌≡◌, true, ◌≤◌, length};
ghost use Rattle.record_spec.specs.Reference.{locators};
ghost use Rattle.types.specs.Values.{as_range, as_reference};
ghost use Rattle.store_spec.specs.Store.{records_of};
ghost use Rattle.store_spec.specs.Accept.{is_stored};
ghost use Rattle.final_block_votes.specs.Walk.{SortedStore};
ghost use Rattle.load_mark_words.specs.Marks.{Cleared, NoneLeft};

use types::TransactionLocatorRange;

// Takes away the mark of the block of a stretch, where the stretch covers the marked share.
pub fn clear_mark(store: &[u8], order: &[u64], marks: &mut [u64], range: TransactionLocatorRange)
    requires { (SortedStore store.now order.now × (is_stored (records_of store.now) (as_reference range.block) ≡ true)) × (length order.now ≤ length marks.old) }
    ensures { Cleared store.now order.now (locators (as_range range)) marks.old marks.new }
{
    let block = range.block;
    let place = final_block_votes::place_of(store, order, block);
    let mark = marks[place];
    if mark <= range.offset_start_inclusive {
        return;
    }
    if range.offset_end_exclusive < mark {
        return;
    }
    marks[place] = 0;
}

// Whether the first n blocks have no mark.
pub fn none_left(marks: &[u64], n: usize) -> bool
    requires { n ≤ length marks.now }
    ensures { NoneLeft marks.now n result }
{
    for k in 0..n {
        if marks[k] != 0 {
            return false;
        }
    }
    true
}
