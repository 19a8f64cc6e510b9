// The ranges for which the block of a record votes, shares in a row in one, or those that it rejects: definitions and laws, and what one statement rejects.
#![tactic(auto)]

ghost use Rattle.std.specs.Prelude.{◌≡◌};
ghost use Rattle.base.specs.Le.{Bytes};
ghost use Rattle.types.specs.Values.{as_locator};
ghost use Rattle.record_statement.specs.Values.{as_statement};
ghost use Rattle.list_block_spans.specs.Ranges.{rejected_range, reject_ranges};
ghost use Rattle.list_block_spans.specs.Answers.{voted_by};

use record_statement::BaseStatement;
use types::{TransactionLocator, TransactionLocatorRange};

// A rejected locator as a range. No vote reaches the last offset, so a reject of it counts for nothing.
fn rejected_range(locator: TransactionLocator) -> Option<TransactionLocatorRange>
    ensures { voted_by result ≡ rejected_range (as_locator locator) }
{
    if locator.offset == types::LAST_OFFSET {
        return None;
    }
    Some(TransactionLocatorRange::one(locator))
}

// What a reject rejects: its first locator. Nothing else does.
pub fn rejected(statement: BaseStatement) -> Option<TransactionLocatorRange>
    ensures { (s : Bytes) → voted_by result ≡ reject_ranges (as_statement s statement) }
{
    match statement {
        BaseStatement::Share(_, _) => None,
        BaseStatement::Accept(_) => None,
        BaseStatement::Reject(l) => rejected_range(l),
        BaseStatement::RejectFor(l, _) => rejected_range(l),
        BaseStatement::VoteRange(_) => None,
    }
}
