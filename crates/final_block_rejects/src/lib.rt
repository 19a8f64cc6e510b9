// The rejects of one stored block, and whom it speaks for by its votes or by its rejects. The Rust knows no withdrawing; the loops follow block_votes.
#![tactic(auto)]

ghost use Rattle.std.specs.Prelude.{◌≡◌, true, ◌<◌};
ghost use Rattle.base.specs.Le.{Bytes};
ghost use Rattle.record_spec.specs.Reference.{same_locator};
ghost use Rattle.record_spec.specs.Record.{well_formed, block_in};
ghost use Rattle.types.specs.Values.{as_locator};
ghost use Rattle.record_statement.specs.Values.{as_statement};
ghost use Rattle.store_spec.specs.Entry.{block_at, is_entry};
ghost use Rattle.final_readings_spec.specs.Rejecting.{rejects, own_reject};
ghost use Rattle.final_readings_spec.specs.Answers.{is_rejecting};
ghost use Rattle.final_block_rejects.specs.Speeches.{statement_rejects, speech_of};

use committee_set::AuthoritySet;
use final_readings_spec::Speech;
use record_statement::BaseStatement;
use types::TransactionLocator;

// Whether two locators are the same.
fn same_locator(a: TransactionLocator, b: TransactionLocator) -> bool
    ensures { result ≡ same_locator (as_locator a) (as_locator b) }
{
    if !final_block_votes::same_reference(a.block, b.block) {
        return false;
    }
    a.offset == b.offset
}

// Whether the statement rejects the locator: as its first, whatever the second one is.
fn statement_rejects(statement: BaseStatement, locator: TransactionLocator) -> bool
    ensures { (s : Bytes) → result ≡ statement_rejects (as_statement s statement) (as_locator locator) }
{
    match statement {
        BaseStatement::Share(_, _) => false,
        BaseStatement::Accept(_) => false,
        BaseStatement::Reject(l) => same_locator(locator, l),
        BaseStatement::RejectFor(l, _) => same_locator(locator, l),
        BaseStatement::VoteRange(_) => false,
    }
}

// Whether the block of a record rejects the locator.
pub fn rejects(rec: &[u8], locator: TransactionLocator) -> bool
    requires { well_formed rec.now ≡ true }
    ensures { result ≡ rejects (block_in rec.now) (as_locator locator) }
{
    let count = record_reader::statement_count(rec);
    let mut cursor = record_cursor::first_statement(rec);
    while cursor.index < count {
        let next = record_cursor::next_statement(rec, cursor);
        let statement = next.statement;
        if statement_rejects(statement, locator) {
            return true;
        }
        cursor = next.next;
    }
    false
}

// Whether the block at a position rejects the locator.
fn rejects_at(store: &[u8], at: usize, locator: TransactionLocator) -> bool
    requires { is_entry store.now at ≡ true }
    ensures { result ≡ rejects (block_at store.now at) (as_locator locator) }
{
    let from = at + 8;
    let end = store_entries::record_end(store, at);
    rejects(&store[from..end], locator)
}

// The author of the block at a position, if it rejects the locator; else nobody.
fn own_reject_at(store: &[u8], at: usize, locator: TransactionLocator) -> AuthoritySet
    requires { (is_entry store.now at ≡ true) × ((block_at store.now at).reference.authority < 128) }
    ensures { result ≡ own_reject (block_at store.now at) (as_locator locator) }
{
    if !rejects_at(store, at, locator) {
        return AuthoritySet::new();
    }
    let block = store_entries::reference_at(store, at);
    AuthoritySet::new().insert(block.authority)
}

// Whom the block at a position speaks for: its author, if it votes for the locator, or if it rejects it; else nobody.
pub fn own_at(store: &[u8], at: usize, locator: TransactionLocator, speech: Speech) -> AuthoritySet
    requires { (is_entry store.now at ≡ true) × ((block_at store.now at).reference.authority < 128) }
    ensures { result ≡ speech_of (is_rejecting speech) (block_at store.now at) (as_locator locator) }
{
    match speech {
        Speech::Votes => final_block_votes::own_vote_at(store, at, locator),
        Speech::Rejects => own_reject_at(store, at, locator),
    }
}
