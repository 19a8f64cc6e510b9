// Runs of neighbouring shares of a record, and the room that its events need. Follows types.rs.
#![tactic(auto)]

ghost use Rattle.std.specs.Prelude.{◌≡◌, ◌+◌, ◌≤◌, length, drop, true};
ghost use mathlib.Core.List.{[], map, flatten};
ghost use Rattle.base.specs.Le.{Bytes};
ghost use Rattle.base.specs.Checks.{passes};
ghost use Rattle.record_spec.specs.Block.{is_share, voted_range, counted_offsets, event_room};
ghost use Rattle.record_spec.specs.Verify.{statement_checks};
ghost use Rattle.record_spec.specs.Record.{well_formed, block_in};
ghost use Rattle.record_cursor.specs.Cursor.{cursor_at};
ghost use Rattle.record_shared_ranges.specs.Cursor.{runs_left, runs_told, FurtherOn};
ghost use Rattle.record_shared_ranges.specs.Step.{leading};
ghost use Rattle.record_statement.specs.Values.{as_statement};

use record_cursor::StatementCursor;
use record_statement::BaseStatement;
use record_statement_votes::Vote;

// A run of neighbouring shares, its start and its end, and the place after it.
#[derive(Clone, Copy)]
pub struct SharedRange {
    pub start: u64,
    pub end: u64,
    pub next: StatementCursor,
}

// ---- runs of shares

// Whether a statement is a share.
pub fn is_share(statement: BaseStatement) -> bool
    ensures { (rec : Bytes) → result ≡ is_share (as_statement rec statement) }
{
    match statement {
        BaseStatement::Share(_, _) => true,
        BaseStatement::Accept(_) => false,
        BaseStatement::Reject(_) => false,
        BaseStatement::RejectFor(_, _) => false,
        BaseStatement::VoteRange(_) => false,
    }
}

// The place after the statements that are shares, or that are none, from a place on.
pub fn skip_statements(rec: &[u8], from: StatementCursor, shares: bool) -> StatementCursor
    requires { (well_formed rec.now ≡ true) × ((from ≡ cursor_at rec.now from.index) × (from.index ≤ length (block_in rec.now).statements)) }
    ensures { result ≡ cursor_at rec.now (from.index + leading shares (drop from.index (block_in rec.now).statements)) }
{
    let count = record_reader::statement_count(rec);
    let mut cursor = from;
    while cursor.index < count {
        let found = record_cursor::next_statement(rec, cursor);
        let statement = found.statement;
        if is_share(statement) != shares {
            return cursor;
        }
        cursor = found.next;
    }
    cursor
}

// The next run of neighbouring shares from a place on, as `shared_ranges` has it; or there is none any more.
pub fn next_shared_range(rec: &[u8], cursor: StatementCursor) -> Option<SharedRange>
    requires { (well_formed rec.now ≡ true) × ((cursor ≡ cursor_at rec.now cursor.index) × (cursor.index ≤ length (block_in rec.now).statements)) }
    ensures { (runs_left (block_in rec.now) cursor.index ≡ runs_told (block_in rec.now) result) × FurtherOn rec.now cursor.index result }
{
    let count = record_reader::statement_count(rec);
    let start = skip_statements(rec, cursor, false);
    if start.index == count {
        return None;
    }
    let end = skip_statements(rec, start, true);
    Some(SharedRange {
        start: start.index as u64,
        end: end.index as u64,
        next: end,
    })
}

// ---- events

// The offsets for which a statement votes, which passes its checks (26 to 28).
fn counted_offsets(statement: BaseStatement) -> u64
    requires { passes (statement_checks (as_statement [] statement)) ≡ true }
    ensures { (rec : Bytes) → result ≡ counted_offsets (voted_range (as_statement rec statement)) }
{
    let vote = record_statement_votes::vote_of(statement);
    match vote {
        Vote::Locator(_) => 1,
        Vote::Range(range) => range.offset_end_exclusive - range.offset_start_inclusive,
        Vote::Nothing => 0,
    }
}

// The event words that a record asks for, whose statements pass their checks.
pub fn event_words(rec: &[u8]) -> u64
    requires { (well_formed rec.now ≡ true) × (passes (flatten (map statement_checks (block_in rec.now).statements)) ≡ true) }
    ensures { result ≡ event_room (block_in rec.now) }
{
    let count = record_reader::statement_count(rec);
    let mut cursor = record_cursor::first_statement(rec);
    let mut offsets: u64 = 0;
    while cursor.index < count {
        let found = record_cursor::next_statement(rec, cursor);
        let statement = found.statement;
        offsets = offsets + counted_offsets(statement);
        cursor = found.next;
    }
    3 * offsets
}
