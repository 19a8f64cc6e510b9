// What is checked of a record's statements: 26 to 28. Follows `verify` of types.rs.
#![tactic(auto)]

ghost use Rattle.std.specs.Prelude.{◌≡◌, true, eqb, ltb, leb};
ghost use mathlib.Core.List.{map, flatten};
ghost use Rattle.record_spec.specs.Reference.{max_len};
ghost use Rattle.base.specs.Lists.{pick};
ghost use Rattle.base.specs.Le.{Bytes};
ghost use Rattle.base.specs.Checks.{refusal};
ghost use Rattle.base.specs.Refusals.{refusal_in};
ghost use Rattle.record_spec.specs.Record.{well_formed, block_in};
ghost use Rattle.record_statement.specs.Values.{as_statement};
ghost use Rattle.record_spec.specs.Verify.{statement_checks};

use base::Refusal;
use record_statement::BaseStatement;
use types::TransactionLocatorRange;

// 26 to 28 of a statement, or none.
fn statement_refusal(statement: BaseStatement) -> Result<(), Refusal>
    ensures { (rec : Bytes) → refusal_in result ≡ refusal (statement_checks (as_statement rec statement)) }
{
    match statement {
        BaseStatement::Share(_, _) => Ok(()),
        BaseStatement::Accept(locator) => accept_refusal(locator.offset),
        BaseStatement::Reject(_) => Ok(()),
        BaseStatement::RejectFor(_, _) => Ok(()),
        BaseStatement::VoteRange(range) => range_refusal(
            range.offset_start_inclusive,
            range.offset_end_exclusive,
        ),
    }
}

fn accept_refusal(offset: u64) -> Result<(), Refusal>
    ensures { refusal_in result ≡ pick (eqb offset 18446744073709551615) 28 0 }
{
    if offset == types::LAST_OFFSET {
        return Err(Refusal::AcceptOffsetTooLarge);
    }
    Ok(())
}

fn range_refusal(start: u64, end: u64) -> Result<(), Refusal>
    ensures { refusal_in result ≡ pick (ltb end start) 26 (pick (leb max_len end) 27 0) }
{
    if end < start {
        return Err(Refusal::RangeEndBelowStart);
    }
    if TransactionLocatorRange::MAX_LEN <= end {
        return Err(Refusal::RangeEndTooLarge);
    }
    Ok(())
}

// 26 to 28, statement by statement, or none.
pub fn statements_refusal(rec: &[u8]) -> Result<(), Refusal>
    requires { well_formed rec.now ≡ true }
    ensures { refusal_in result ≡ refusal (flatten (map statement_checks (block_in rec.now).statements)) }
{
    let count = record_reader::statement_count(rec);
    let mut cursor = record_cursor::first_statement(rec);
    while cursor.index < count {
        let found = record_cursor::next_statement(rec, cursor);
        let statement = found.statement;
        statement_refusal(statement)?;
        cursor = found.next;
    }
    Ok(())
}
