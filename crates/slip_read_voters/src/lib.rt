// The voters of a certifying block of a slip, read one after the other: their form, their authors, and what their paths show.
#![tactic(auto)]

ghost use Rattle.std.specs.Prelude.{◌≤◌, length, eqb, ltb, ◌≡◌, ◌||◌};
ghost use Rattle.base.specs.Lists.{pick};
ghost use Rattle.committee_set.specs.AuthoritySet.{inserted};
ghost use Rattle.slip_spec.specs.Supplied.{supplied_blocks};
ghost use Rattle.slip_read_records.specs.Places.{Places};
ghost use Rattle.slip_read_paths.specs.Walk.{InPlace};
ghost use Rattle.slip_read_voters.specs.Step.{TookVoter, TookVoters};

use committee::AuthorityIndex;
use committee_set::AuthoritySet;
use slip_read_paths::Led;

// The set with an author in it; none of 128 or more is in a committee.
pub fn with_author(authors: AuthoritySet, author: u64) -> AuthoritySet
    ensures { result ≡ pick (ltb author 128) (inserted authors author) authors }
{
    if author < 128 {
        return authors.insert(AuthorityIndex(author));
    }
    authors
}

// The voter at a position: its author, and where it ends. Its path begins 10 bytes after it. None where it is malformed.
fn take_voter(slip: &[u8], at: usize) -> Option<(u64, usize)>
    requires { at ≤ length slip.now }
    ensures { TookVoter slip.now at result }
{
    if slip.len() - at < 10 {
        return None;
    }
    let author = base::read_u64(slip, at);
    let n = base::read_u16(slip, at + 8) as usize;
    let from = at + 10;
    if slip.len() - from < n {
        return None;
    }
    Some((author, from + n))
}

// Whether an author is the first, or above the last.
fn follows(i: usize, last: u64, author: u64) -> bool
    ensures { result ≡ eqb i 0 || ltb last author }
{
    if i == 0 {
        return true;
    }
    last < author
}

// As many voters, from a position on: where they end, their authors, and what they show (0 that they hold, 1 that they do not, 2 that a record is
// missing). Their authors strictly ascend; none where they do not, or one is malformed.
pub fn take_voters(
    slip: &[u8],
    from: usize,
    count: usize,
    records: &[u8],
    order: &[u64],
    votes: &[u8],
    certifier: Led,
) -> Option<(usize, AuthoritySet, u64)>
    requires { (from ≤ length slip.now) × (Places records.now (supplied_blocks records.now) order.now × (InPlace order.now certifier × (length order.now ≤ length votes.now))) }
    ensures { TookVoters slip.now from count records.now order.now votes.now certifier result }
{
    let mut at = from;
    let mut authors = AuthoritySet::new();
    let mut shown: u64 = 0;
    let mut last: u64 = 0;
    for i in 0..count {
        let (author, end) = take_voter(slip, at)?;
        if !follows(i, last, author) {
            return None;
        }
        let path = at + 10;
        let own = slip_read_verdicts::voter_verdict(
            records,
            order,
            votes,
            certifier,
            author,
            &slip[path..end],
        );
        authors = with_author(authors, author);
        shown = slip_read_verdicts::worse(shown, own);
        last = author;
        at = end;
    }
    Some((at, authors, shown))
}
