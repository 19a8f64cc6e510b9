// The statements of a well-formed record, one after the other. Follows types.rs.
#![tactic(auto)]

ghost use Rattle.std.specs.Prelude.{◌≡◌, ◌+◌, ◌<◌, length, get_or, true};
ghost use Rattle.record_spec.specs.Record.{well_formed, block_in, no_statement};
ghost use Rattle.record_cursor.specs.Cursor.{cursor_at};
ghost use Rattle.record_statement.specs.Step.{payload_between};
ghost use Rattle.record_statement.specs.Values.{as_statement};

use record_statement::BaseStatement;

// A place among the statements of a record: where the statement of that index stands.
#[derive(Clone, Copy)]
pub struct StatementCursor {
    pub at: usize,
    pub index: usize,
}

// A statement, and the place of the next.
#[derive(Clone, Copy)]
pub struct NextStatement {
    pub statement: BaseStatement,
    pub next: StatementCursor,
}

// The place of its first statement.
pub fn first_statement(rec: &[u8]) -> StatementCursor
    requires { well_formed rec.now ≡ true }
    ensures { result ≡ cursor_at rec.now 0 }
{
    StatementCursor {
        at: record_edition::body_start(rec)
            + types::REFERENCE_BYTES * record_reader::include_count(rec),
        index: 0,
    }
}

// The statement at a place, and the next place.
pub fn next_statement(rec: &[u8], cursor: StatementCursor) -> NextStatement
    requires { (well_formed rec.now ≡ true) × ((cursor ≡ cursor_at rec.now cursor.index) × (cursor.index < length (block_in rec.now).statements)) }
    ensures { (as_statement rec.now result.statement ≡ get_or (block_in rec.now).statements cursor.index no_statement) × ((result.next ≡ cursor_at rec.now (cursor.index + 1)) × (payload_between cursor.at result.next.at result.statement ≡ true)) }
{
    let at = cursor.at;
    let Some((statement, end)) = record_statement::take_statement(rec, at) else {
        // Never so: the record is well formed.
        return NextStatement {
            statement: BaseStatement::Share(at, 0),
            next: cursor,
        };
    };
    NextStatement {
        statement,
        next: StatementCursor {
            at: end,
            index: cursor.index + 1,
        },
    }
}
