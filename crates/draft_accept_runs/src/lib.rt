// Runs of accepts: whether an accept goes on with one, and a run as it is written. Follows types.rs, `VoteRangeBuilder`.
#![tactic(auto)]

ghost use Rattle.std.specs.Prelude.{◌≡◌, true, ◌+◌};
ghost use Rattle.base.specs.Le.{Bytes};
ghost use Rattle.record_spec.specs.Reference.{locator, new_range, one_range};
ghost use Rattle.types.specs.Values.{as_reference, as_locator};
ghost use Rattle.record_statement.specs.Values.{as_statement};
ghost use Rattle.draft_spec.specs.Joining.{run, right_piece, touches, run_statement};
ghost use Rattle.draft_accept_runs.specs.Step.{payload_inside};

use record_statement::BaseStatement;
use std::cmp::Ordering;
use types::{BlockReference, TransactionLocator, TransactionLocatorRange};

// An accept goes on with a run: the same block, the offset one above the last, and the end stays below the limit.
pub fn goes_on(block: BlockReference, last: u64, other: TransactionLocator) -> bool
    ensures { result ≡ touches (one_range (locator (as_reference block) last)) (one_range (as_locator other)) }
{
    if TransactionLocatorRange::MAX_LEN - 1 <= other.offset {
        return false;
    }
    if other.offset <= last {
        return false;
    }
    if other.offset != last + 1 {
        return false;
    }
    match types::compare(block, other.block) {
        Ordering::Equal => true,
        Ordering::Less => false,
        Ordering::Greater => false,
    }
}

// A run as it is written: a lone accept stays a vote.
pub fn run_statement(block: BlockReference, first: u64, last: u64) -> BaseStatement
    requires { right_piece (run (new_range (as_reference block) first (last + 1))) ≡ true }
    ensures { ((s : Bytes) → as_statement s result ≡ run_statement (new_range (as_reference block) first (last + 1))) × (payload_inside 0 result ≡ true) }
{
    if first == last {
        return BaseStatement::Accept(TransactionLocator {
            block,
            offset: first,
        });
    }
    BaseStatement::VoteRange(TransactionLocatorRange::new(block, first, last + 1))
}
