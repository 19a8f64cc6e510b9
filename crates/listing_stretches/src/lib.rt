// The stretches of a list in bulk, read from the 80 bytes of each: author, round, digest, first offset, end, certifying blocks, stake.
#![tactic(auto)]

ghost use Rattle.std.specs.Prelude.{◌≡◌, ◌+◌, ◌-◌, ◌*◌, ◌≤◌, length};
ghost use Rattle.types.specs.Values.{as_maybe};
ghost use Rattle.listing_stretches.specs.Stretches.{ReadStretch, last_of};

use listing_final_lines::Stretch;
use types::TransactionLocator;

// How many offsets there are from the first to the end.
fn offsets(first: u64, end: u64) -> u64
    ensures { result ≡ end - first }
{
    if end < first {
        return 0;
    }
    end - first
}

// The stretch of that index.
pub fn read_stretch(stretches: &[u8], i: usize) -> Stretch
    requires { 80 * i + 80 ≤ length stretches.now }
    ensures { ReadStretch stretches.now (80 * i) result }
{
    let at = 80 * i;
    let block = record_reference_bytes::read_reference(stretches, at);
    let digest = block.digest;
    let first = base::read_u64(stretches, at + 48);
    let end = base::read_u64(stretches, at + 56);
    Stretch {
        round: block.round.0,
        author: block.authority.0,
        head: digest.0 / 4294967296,
        first,
        lines: offsets(first, end),
        blocks: base::read_u64(stretches, at + 64),
        stake: base::read_u64(stretches, at + 72),
    }
}

// The offset before an end.
fn before(end: u64) -> u64
    ensures { result ≡ end - 1 }
{
    if end == 0 {
        return 0;
    }
    end - 1
}

// The last locator of n stretches, after which the list goes on; the one before them where there are none.
pub fn last_locator(
    stretches: &[u8],
    n: usize,
    after: Option<TransactionLocator>,
) -> Option<TransactionLocator>
    requires { 80 * n ≤ length stretches.now }
    ensures { as_maybe result ≡ last_of stretches.now n (as_maybe after) }
{
    if n == 0 {
        return after;
    }
    let at = 80 * (n - 1);
    let block = record_reference_bytes::read_reference(stretches, at);
    let offset = before(base::read_u64(stretches, at + 56));
    Some(TransactionLocator { block, offset })
}
