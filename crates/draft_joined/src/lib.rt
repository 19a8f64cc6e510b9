// The given statements of a block of our own, one after the other, with neighbouring accepts joined. Follows types.rs, `VoteRangeBuilder`.
#![tactic(auto)]

ghost use Rattle.std.specs.Prelude.{◌≡◌, ◌≤◌, ◌<◌, length, get_or};
ghost use Rattle.types.specs.Values.{as_locator};
ghost use Rattle.draft_joined.specs.Step.{TookGiven, TookAccept, RunFrom, TookJoined};

use record_statement::BaseStatement;
use types::TransactionLocator;

// A run of accepts: its last offset, and the position after it.
#[derive(Clone, Copy)]
struct Run {
    last: u64,
    at: usize,
}

// ---- a statement as it is given, with the position after it; or nothing where it is malformed

// A share's length has 4 bytes here.
fn take_long_share(s: &[u8], at: usize) -> Option<(BaseStatement, usize)>
    requires { (at < length s.now) × (get_or s.now at 0 ≡ 0) }
    ensures { TookGiven s.now at result }
{
    if s.len() - at < 5 {
        return None;
    }
    let len = base::read_u32(s, at + 1) as usize;
    let start = at + 5;
    if s.len() - start < len {
        return None;
    }
    Some((BaseStatement::Share(start, len), start + len))
}

fn take_given(s: &[u8], at: usize) -> Option<(BaseStatement, usize)>
    ensures { TookGiven s.now at result }
{
    if s.len() <= at {
        return None;
    }
    if s[at] == 0 {
        return take_long_share(s, at);
    }
    record_statement::take_statement(s, at)
}

// ---- runs of accepts

// The accept at a position of the given statements with the position after it, or nothing where something else is there.
fn next_accept(s: &[u8], at: usize) -> Option<(TransactionLocator, usize)>
    requires { at ≤ length s.now }
    ensures { TookAccept s.now at result }
{
    let (statement, next) = take_given(s, at)?;
    match statement {
        BaseStatement::Accept(locator) => Some((locator, next)),
        BaseStatement::Share(_, _) => None,
        BaseStatement::Reject(_) => None,
        BaseStatement::RejectFor(_, _) => None,
        BaseStatement::VoteRange(_) => None,
    }
}

// The run of accepts that begins with `first`; the statement after it stands at `from`.
fn run_of(s: &[u8], first: TransactionLocator, from: usize) -> Run
    requires { from ≤ length s.now }
    ensures { RunFrom s.now (as_locator first) from result.last result.at }
{
    let mut last = first.offset;
    let mut at = from;
    loop {
        let Some((other, next)) = next_accept(s, at) else {
            return Run { last, at };
        };
        if !draft_accept_runs::goes_on(first.block, last, other) {
            return Run { last, at };
        }
        last = other.offset;
        at = next;
    }
}

// ---- the statements as they are written

// The next one, from the given statement at a position on; and the position of the given statement after it. Nothing where one is
// malformed.
pub fn next_joined(s: &[u8], at: usize) -> Option<(BaseStatement, usize)>
    requires { at < length s.now }
    ensures { TookJoined s.now at result }
{
    let (statement, next) = take_given(s, at)?;
    let BaseStatement::Accept(first) = statement else {
        return Some((statement, next));
    };
    let run = run_of(s, first, next);
    Some((
        draft_accept_runs::run_statement(first.block, first.offset, run.last),
        run.at,
    ))
}
