// The statements of a record written, and their sizes: beside the readers of statement_reader. Follows types.rs.
#![tactic(auto)]

ghost use Rattle.std.specs.Prelude.{◌≡◌, true, false, ◌∷◌, ◌+◌, ◌≤◌, ◌<◌, length, take, drop};
ghost use Rattle.std.proofs.lemmas.List.Edits.{sets};
ghost use Rattle.record_spec.specs.Block.{share, vote_range};
ghost use Rattle.record_spec.specs.Record.{locator_bytes, statement_bytes};
ghost use Rattle.types.specs.Values.{as_locator, as_range};
ghost use Rattle.record_statement.specs.Values.{as_statement};
ghost use Rattle.draft_spec.specs.Writing.{is_long};
ghost use Rattle.draft_accept_runs.specs.Step.{payload_inside};
ghost use Rattle.draft_statements.specs.Step.{size_of};

use record_statement::BaseStatement;
use types::{TransactionLocator, TransactionLocatorRange};

// The bytes of a statement; or nothing where its payload is longer than 65,535.
pub fn statement_size(statement: BaseStatement) -> Option<usize>
    ensures { result ≡ size_of statement }
{
    match statement {
        BaseStatement::Share(_, len) => {
            if 65535 < len {
                return None;
            }
            Some(3 + len)
        }
        BaseStatement::Accept(_) => Some(57),
        BaseStatement::Reject(_) => Some(58),
        BaseStatement::RejectFor(_, _) => Some(114),
        BaseStatement::VoteRange(_) => Some(65),
    }
}

fn write_share(out: &mut [u8], at: usize, s: &[u8], start: usize, len: usize)
    requires { (start + len ≤ length s.now) × ((len < 65536) × (at + (3 + len) ≤ length out.old)) }
    ensures { out.new ≡ sets out.old at (statement_bytes (share (take len (drop start s.now)))) }
{
    out[at] = 0;
    base::write_u16(out, at + 1, len as u16);
    let end = start + len;
    base::copy_to(out, at + 3, &s[start..end]);
}

// A byte, and a locator after it.
fn write_marked(out: &mut [u8], at: usize, mark: u8, locator: TransactionLocator)
    requires { at + 57 ≤ length out.old }
    ensures { out.new ≡ sets out.old at (mark ∷ locator_bytes (as_locator locator)) }
{
    out[at] = mark;
    record_reference_bytes::write_locator(out, at + 1, locator);
}

fn write_range(out: &mut [u8], at: usize, range: TransactionLocatorRange)
    requires { at + 65 ≤ length out.old }
    ensures { out.new ≡ sets out.old at (statement_bytes (vote_range (as_range range))) }
{
    out[at] = 3;
    record_reference_bytes::write_reference(out, at + 1, range.block);
    base::write_u64(out, at + 49, range.offset_start_inclusive);
    base::write_u64(out, at + 57, range.offset_end_exclusive);
}

// A statement; a share's payload stands in `s`.
pub fn write_statement(out: &mut [u8], at: usize, s: &[u8], statement: BaseStatement)
    requires { (payload_inside (length s.now) statement ≡ true) × ((is_long (as_statement s.now statement) ≡ false) × (at + length (statement_bytes (as_statement s.now statement)) ≤ length out.old)) }
    ensures { out.new ≡ sets out.old at (statement_bytes (as_statement s.now statement)) }
{
    match statement {
        BaseStatement::Share(start, len) => {
            write_share(out, at, s, start, len);
        }
        BaseStatement::Accept(locator) => {
            write_marked(out, at, 1, locator);
        }
        BaseStatement::Reject(locator) => {
            write_marked(out, at, 2, locator);
            out[at + 57] = 0;
        }
        BaseStatement::RejectFor(locator, other) => {
            write_marked(out, at, 2, locator);
            write_marked(out, at + 57, 1, other);
        }
        BaseStatement::VoteRange(range) => {
            write_range(out, at, range);
        }
    }
}
