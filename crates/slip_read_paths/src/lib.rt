// Paths of include places over the records that come with a slip.
#![tactic(auto)]

ghost use Rattle.std.specs.Prelude.{◌≤◌, ◌<◌, ◌≡◌, length};
ghost use Rattle.std.proofs.Math.ListN.{get_elem?};
ghost use Rattle.types.specs.Values.{as_reference, as_locator};
ghost use Rattle.slip_spec.specs.Supplied.{supplied_blocks};
ghost use Rattle.slip_spec.specs.Paths.{named, to_block, on_from, on_by, leads};
ghost use Rattle.slip_read_records.specs.Places.{block_at_place, Sorted, Places};
ghost use Rattle.slip_read_paths.specs.Walk.{Noted, LedTo};

use types::{BlockReference, TransactionLocator};

// Where a path leads: to the block at a place, past the end of a block's includes, or to a block that is not among the records.
#[derive(Clone, Copy)]
pub enum Led {
    To(usize),
    Nowhere,
    NotGiven,
}

// The epoch mark.
pub fn epoch_changed_at(records: &[u8], order: &[u64], place: usize) -> bool
    requires { Sorted records.now order.now × (place < length order.now) }
    ensures { result ≡ (block_at_place records.now order.now place).marked }
{
    let at = order[place] as usize;
    let from = at + 4;
    let end = slip_read_records::record_end(records, at);
    record_reader::epoch_changed(&records[from..end])
}

// Notes for each place whether the block there votes for the locator, 1 or 0: so that a record is asked once, however many paths end there.
pub fn note_votes(records: &[u8], order: &[u64], locator: TransactionLocator, votes: &mut [u8])
    requires { Sorted records.now order.now × (length order.now ≤ length votes.old) }
    ensures { Noted records.now order.now (as_locator locator) (length order.now) votes.new }
{
    for j in 0..order.len() {
        let at = order[j] as usize;
        let from = at + 4;
        let end = slip_read_records::record_end(records, at);
        let voting = final_block_votes::votes_for(&records[from..end], locator);
        votes[j] = voting as u8;
    }
}

// The block of a reference.
pub fn find(records: &[u8], order: &[u64], block: BlockReference) -> Led
    requires { Places records.now (supplied_blocks records.now) order.now }
    ensures { LedTo records.now order.now result (on_from to_block (named (supplied_blocks records.now) (as_reference block))) }
{
    let found = record_reference_search::find_place(records, order, 4, block);
    match found {
        Ok(j) => Led::To(j),
        Err(_) => Led::NotGiven,
    }
}

// One include on from the block at a place.
pub fn step(records: &[u8], order: &[u64], place: usize, k: usize) -> Led
    requires { Places records.now (supplied_blocks records.now) order.now × (place < length order.now) }
    ensures { LedTo records.now order.now result (on_by (supplied_blocks records.now) to_block (get_elem? (block_at_place records.now order.now place).includes k)) }
{
    let at = order[place] as usize;
    let from = at + 4;
    let end = slip_read_records::record_end(records, at);
    if record_reader::include_count(&records[from..end]) <= k {
        return Led::Nowhere;
    }
    let include = record_reader::include(&records[from..end], k);
    find(records, order, include)
}

// Where a path leads from the block at a place.
pub fn walk(records: &[u8], order: &[u64], start: usize, path: &[u8]) -> Led
    requires { Places records.now (supplied_blocks records.now) order.now × (start < length order.now) }
    ensures { LedTo records.now order.now result (leads (supplied_blocks records.now) path.now (block_at_place records.now order.now start)) }
{
    let mut place = start;
    let mut i: usize = 0;
    while i < path.len() {
        let led = step(records, order, place, path[i] as usize);
        match led {
            Led::To(next) => {
                place = next;
                i = i + 1;
            }
            Led::Nowhere => {
                return Led::Nowhere;
            }
            Led::NotGiven => {
                return Led::NotGiven;
            }
        }
    }
    Led::To(place)
}
