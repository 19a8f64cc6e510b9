// The ranges of a block by their kind: what it votes for, what it rejects, and its shares, each as the statements of its record give it.
#![tactic(auto)]

ghost use Rattle.std.specs.Prelude.{◌≡◌, true, ◌+◌, ◌<◌, length};
ghost use Rattle.record_spec.specs.Record.{well_formed, block_in};
ghost use Rattle.types.specs.Values.{as_reference};
ghost use Rattle.record_cursor.specs.Cursor.{cursor_at};
ghost use Rattle.list_block_spans.specs.Joined.{VotesFit};
ghost use Rattle.list_kind_ranges.specs.Kinds.{is_rejects, is_shares};
ghost use Rattle.list_kind_ranges.specs.Next.{NextIn};

use record_cursor::StatementCursor;
use types::{BlockReference, TransactionLocatorRange};

// Which ranges of a block: those for which it votes, those that it rejects, or its shares.
#[derive(Clone, Copy)]
pub enum RangeKind {
    Votes,
    Rejects,
    Shares,
}

fn is_rejects(kind: RangeKind) -> bool
    ensures { result ≡ is_rejects kind }
{
    match kind {
        RangeKind::Votes => false,
        RangeKind::Rejects => true,
        RangeKind::Shares => false,
    }
}

fn is_shares(kind: RangeKind) -> bool
    ensures { result ≡ is_shares kind }
{
    match kind {
        RangeKind::Votes => false,
        RangeKind::Rejects => false,
        RangeKind::Shares => true,
    }
}

// The range that the statements at a place give, or none; where its reference stands in the record; and the place after them.
#[derive(Clone, Copy)]
pub struct NextRange {
    pub vote: Option<TransactionLocatorRange>,
    pub at: usize,
    pub next: StatementCursor,
}

// What the statements at a place give: the shares in a row from there on, or what an accept or a range votes for, or what a reject rejects. The reference
// stands after the kind of the statement or, of shares, at the start of the record.
pub fn next_range(
    rec: &[u8],
    block: BlockReference,
    cursor: StatementCursor,
    kind: RangeKind,
) -> NextRange
    requires { ((well_formed rec.now ≡ true) × VotesFit (block_in rec.now)) × ((as_reference block ≡ (block_in rec.now).reference) × ((cursor ≡ cursor_at rec.now cursor.index) × (cursor.index < length (block_in rec.now).statements))) }
    ensures { NextIn kind rec.now cursor.index result }
{
    let found = record_cursor::next_statement(rec, cursor);
    let statement = found.statement;
    let at = cursor.at + 1;
    if is_rejects(kind) {
        let vote = list_block_spans::rejected(statement);
        let next = found.next;
        return NextRange { vote, at, next };
    }
    if record_shared_ranges::is_share(statement) {
        let next = record_shared_ranges::skip_statements(rec, cursor, true);
        let range = TransactionLocatorRange {
            block,
            offset_start_inclusive: cursor.index as u64,
            offset_end_exclusive: next.index as u64,
        };
        let vote = Some(range);
        return NextRange { vote, at: 0, next };
    }
    let next = found.next;
    if is_shares(kind) {
        let vote = None;
        return NextRange { vote, at, next };
    }
    let vote = record_statement_votes::voted_range(statement);
    NextRange { vote, at, next }
}
