// The vote of one stored block, and the stored blocks in ascending reference order. Follows finalization_interpreter.rs.
#![tactic(auto)]

ghost use Rattle.std.specs.Prelude.{◌≡◌, true, ◌≤◌, ◌<◌, length, get_or, take};
ghost use Rattle.base.specs.Le.{Bytes};
ghost use Rattle.record_spec.specs.Reference.{locator as newLocator, one_range, covers, same_reference};
ghost use Rattle.record_spec.specs.Record.{well_formed, block_in, no_reference};
ghost use Rattle.types.specs.Values.{as_reference, as_locator, as_range};
ghost use Rattle.record_statement.specs.Values.{as_statement};
ghost use Rattle.store_spec.specs.Store.{records_of};
ghost use Rattle.store_spec.specs.Accept.{is_stored};
ghost use Rattle.store_spec.specs.Entry.{block_at, laid_out, sorted_positions, is_entry};
ghost use Rattle.final_spec.specs.Voters.{votes_for, own_vote};
ghost use Rattle.final_block_votes.specs.Walk.{statement_votes, SortedStore, block_at_place};

use committee_set::AuthoritySet;
use record_statement::BaseStatement;
use record_statement_votes::Vote;
use std::cmp::Ordering;
use types::{BlockReference, TransactionLocator, TransactionLocatorRange};

// ---- the vote of one block

// Whether two references are the same.
pub fn same_reference(a: BlockReference, b: BlockReference) -> bool
    ensures { result ≡ same_reference (as_reference a) (as_reference b) }
{
    let order = types::compare(a, b);
    match order {
        Ordering::Less => false,
        Ordering::Equal => true,
        Ordering::Greater => false,
    }
}

// Whether the locator is the one of a block and an offset.
fn is_at(block: BlockReference, offset: u64, locator: TransactionLocator) -> bool
    ensures { result ≡ covers (one_range (newLocator (as_reference block) offset)) (as_locator locator) }
{
    if !same_reference(block, locator.block) {
        return false;
    }
    offset == locator.offset
}

// Whether the range covers the locator.
fn covers(range: TransactionLocatorRange, locator: TransactionLocator) -> bool
    ensures { result ≡ covers (as_range range) (as_locator locator) }
{
    if !same_reference(range.block, locator.block) {
        return false;
    }
    if locator.offset < range.offset_start_inclusive {
        return false;
    }
    locator.offset < range.offset_end_exclusive
}

// Whether the statement at an offset of a block votes for the locator: a share for its own place, an accept or a range for what it covers.
fn statement_votes_for(
    block: BlockReference,
    offset: u64,
    statement: BaseStatement,
    locator: TransactionLocator,
) -> bool
    ensures { (s : Bytes) → result ≡ statement_votes (as_reference block) offset (as_statement s statement) (as_locator locator) }
{
    if record_shared_ranges::is_share(statement) {
        return is_at(block, offset, locator);
    }
    let vote = record_statement_votes::vote_of(statement);
    match vote {
        Vote::Locator(l) => is_at(l.block, l.offset, locator),
        Vote::Range(r) => covers(r, locator),
        Vote::Nothing => false,
    }
}

// Whether the block of a record votes for the locator.
pub fn votes_for(rec: &[u8], locator: TransactionLocator) -> bool
    requires { well_formed rec.now ≡ true }
    ensures { result ≡ votes_for (block_in rec.now) (as_locator locator) }
{
    let count = record_reader::statement_count(rec);
    let block = record_reader::reference(rec);
    let mut cursor = record_cursor::first_statement(rec);
    while cursor.index < count {
        let next = record_cursor::next_statement(rec, cursor);
        let statement = next.statement;
        if statement_votes_for(block, cursor.index as u64, statement, locator) {
            return true;
        }
        cursor = next.next;
    }
    false
}

// ---- the block at a position

// Whether it votes for the locator.
pub fn votes_at(store: &[u8], at: usize, locator: TransactionLocator) -> bool
    requires { is_entry store.now at ≡ true }
    ensures { result ≡ votes_for (block_at store.now at) (as_locator locator) }
{
    let from = at + 8;
    let end = store_entries::record_end(store, at);
    votes_for(&store[from..end], locator)
}

// Its author, if it votes for the locator; else nobody.
pub fn own_vote_at(store: &[u8], at: usize, locator: TransactionLocator) -> AuthoritySet
    requires { (is_entry store.now at ≡ true) × ((block_at store.now at).reference.authority < 128) }
    ensures { result ≡ own_vote (block_at store.now at) (as_locator locator) }
{
    if !votes_at(store, at, locator) {
        return AuthoritySet::new();
    }
    let block = store_entries::reference_at(store, at);
    AuthoritySet::new().insert(block.authority)
}

// The number of its includes.
pub fn include_count_at(store: &[u8], at: usize) -> usize
    requires { is_entry store.now at ≡ true }
    ensures { result ≡ length (block_at store.now at).includes }
{
    let from = at + 8;
    let end = store_entries::record_end(store, at);
    record_reader::include_count(&store[from..end])
}

// Its include of that index.
pub fn include_at(store: &[u8], at: usize, j: usize) -> BlockReference
    requires { (is_entry store.now at ≡ true) × (j < length (block_at store.now at).includes) }
    ensures { as_reference result ≡ get_or (block_at store.now at).includes j no_reference }
{
    let from = at + 8;
    let end = store_entries::record_end(store, at);
    record_reader::include(&store[from..end], j)
}

// Its epoch mark.
pub fn epoch_changed_at(store: &[u8], at: usize) -> bool
    requires { is_entry store.now at ≡ true }
    ensures { result ≡ (block_at store.now at).marked }
{
    let from = at + 8;
    let end = store_entries::record_end(store, at);
    record_reader::epoch_changed(&store[from..end])
}

// The positions of the entries in ascending reference order, along the chain; the answer is their number.
pub fn sorted_positions(store: &[u8], order: &mut [u64]) -> usize
    requires { (laid_out store.now ≡ true) × (1024 ≤ length order.old) }
    ensures { (result ≤ 1024) × ((result ≡ length (records_of store.now)) × (take result order.new ≡ sorted_positions (records_of store.now))) }
{
    let count = base::read_u16(store, 8) as usize;
    let mut at = base::read_u32(store, 0) as usize;
    for k in 0..count {
        order[k] = at as u64;
        at = base::read_u32(store, at) as usize;
    }
    count
}

// The place of a stored block among the positions in ascending reference order.
pub fn place_of(store: &[u8], order: &[u64], block: BlockReference) -> usize
    requires { SortedStore store.now order.now × (is_stored (records_of store.now) (as_reference block) ≡ true) }
    ensures { (result < length order.now) × ((block_at_place store.now order.now result).reference ≡ as_reference block) }
{
    let found = record_reference_search::find_place(store, order, 8, block);
    match found {
        Ok(k) => k,
        // Never so: the block is stored.
        Err(_) => 0,
    }
}
