// What a statement votes for, beside its own share. Follows types.rs.
#![tactic(auto)]

ghost use Rattle.std.specs.Prelude.{◌≡◌, []};
ghost use Rattle.base.specs.Le.{Bytes};
ghost use Rattle.record_spec.specs.Block.{voted_range};
ghost use Rattle.record_statement.specs.Values.{as_statement};
ghost use Rattle.record_statement_votes.specs.Votes.{as_vote, as_voted, EndsInside};

use record_statement::BaseStatement;
use types::{TransactionLocator, TransactionLocatorRange};

// The locator of an accept, or a range, or nothing.
#[derive(Clone, Copy)]
pub enum Vote {
    Locator(TransactionLocator),
    Range(TransactionLocatorRange),
    Nothing,
}

pub fn vote_of(statement: BaseStatement) -> Vote
    ensures { (s : Bytes) → as_vote result ≡ voted_range (as_statement s statement) }
{
    match statement {
        BaseStatement::Share(_, _) => Vote::Nothing,
        BaseStatement::Accept(locator) => Vote::Locator(locator),
        BaseStatement::Reject(_) => Vote::Nothing,
        BaseStatement::RejectFor(_, _) => Vote::Nothing,
        BaseStatement::VoteRange(range) => Vote::Range(range),
    }
}

// The same as a range, or nothing.
pub fn voted_range(statement: BaseStatement) -> Option<TransactionLocatorRange>
    requires { EndsInside (as_statement [] statement) }
    ensures { (s : Bytes) → as_voted result ≡ voted_range (as_statement s statement) }
{
    let vote = vote_of(statement);
    match vote {
        Vote::Locator(locator) => {
            let block = locator.block;
            let offset = locator.offset;
            Some(TransactionLocatorRange::one(TransactionLocator { block, offset }))
        }
        Vote::Range(range) => Some(range),
        Vote::Nothing => None,
    }
}
