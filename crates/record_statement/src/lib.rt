// A statement read at a position of a record, and statements one after the other. Follows types.rs.
#![tactic(auto)]

ghost use Rattle.std.specs.Prelude.{◌≡◌, ◌≤◌, ◌<◌, length, get_or, drop};
ghost use Rattle.record_statement.specs.Step.{Took, statements_only};

use types::{TransactionLocator, TransactionLocatorRange};

// A statement of a record. Of a share: where its payload starts in the record, and its length.
#[derive(Clone, Copy)]
pub enum BaseStatement {
    Share(usize, usize),
    Accept(TransactionLocator),
    Reject(TransactionLocator),
    RejectFor(TransactionLocator, TransactionLocator),
    VoteRange(TransactionLocatorRange),
}

// ---- statements: each of the four takes the position of a kind byte, its own; it answers the statement that was read, with the
// position after it, or nothing where it is malformed

fn take_share(s: &[u8], at: usize) -> Option<(BaseStatement, usize)>
    requires { (at < length s.now) × (get_or s.now at 0 ≡ 0) }
    ensures { Took s.now at result }
{
    if s.len() - at < 3 {
        return None;
    }
    let len = base::read_u16(s, at + 1) as usize;
    let start = at + 3;
    if s.len() - start < len {
        return None;
    }
    Some((BaseStatement::Share(start, len), start + len))
}

fn take_accept(s: &[u8], at: usize) -> Option<(BaseStatement, usize)>
    requires { (at < length s.now) × (get_or s.now at 0 ≡ 1) }
    ensures { Took s.now at result }
{
    if s.len() - at < 57 {
        return None;
    }
    let locator = record_reference_bytes::read_locator(s, at + 1);
    Some((BaseStatement::Accept(locator), at + 57))
}

fn take_reject(s: &[u8], at: usize) -> Option<(BaseStatement, usize)>
    requires { (at < length s.now) × (get_or s.now at 0 ≡ 2) }
    ensures { Took s.now at result }
{
    if s.len() - at < 58 {
        return None;
    }
    let locator = record_reference_bytes::read_locator(s, at + 1);
    let more = s[at + 57];
    if more == 0 {
        return Some((BaseStatement::Reject(locator), at + 58));
    }
    if more != 1 {
        return None;
    }
    if s.len() - at < 114 {
        return None;
    }
    let other = record_reference_bytes::read_locator(s, at + 58);
    Some((BaseStatement::RejectFor(locator, other), at + 114))
}

fn take_range(s: &[u8], at: usize) -> Option<(BaseStatement, usize)>
    requires { (at < length s.now) × (get_or s.now at 0 ≡ 3) }
    ensures { Took s.now at result }
{
    if s.len() - at < 65 {
        return None;
    }
    let block = record_reference_bytes::read_reference(s, at + 1);
    let start = base::read_u64(s, at + 49);
    let end = base::read_u64(s, at + 57);
    let range = TransactionLocatorRange::new(block, start, end);
    Some((BaseStatement::VoteRange(range), at + 65))
}

// The statement whose kind byte stands at a position, with the position after it; or nothing where it is malformed.
pub fn take_statement(s: &[u8], at: usize) -> Option<(BaseStatement, usize)>
    ensures { Took s.now at result }
{
    if s.len() <= at {
        return None;
    }
    let kind = s[at];
    if kind == 0 {
        return take_share(s, at);
    }
    if kind == 1 {
        return take_accept(s, at);
    }
    if kind == 2 {
        return take_reject(s, at);
    }
    if kind == 3 {
        return take_range(s, at);
    }
    None
}

// `count` statements stand from a position on, and nothing after them.
pub fn statements_only(s: &[u8], from: usize, count: usize) -> bool
    requires { from ≤ length s.now }
    ensures { result ≡ statements_only count (drop from s.now) }
{
    let mut at = from;
    let mut left = count;
    while 0 < left {
        let Some((_, next)) = take_statement(s, at) else {
            return false;
        };
        at = next;
        left = left - 1;
    }
    at == s.len()
}
