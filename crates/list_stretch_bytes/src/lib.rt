// The 80 bytes of a stretch of final locators, and the answer of the lists in bulk.
#![tactic(auto)]

ghost use Rattle.std.specs.Prelude.{◌≡◌, ◌+◌, ◌*◌, ◌≤◌, length};
ghost use Rattle.std.proofs.lemmas.List.Edits.{sets};
ghost use Rattle.types.specs.Values.{as_locator};
ghost use Rattle.list_stretches_spec.specs.Bulk.{stretch_bytes};
ghost use Rattle.list_stretch_bytes.specs.Step.{final_stretch};
ghost use Rattle.list_stretch_bytes.specs.Claims.{Claims};

use committee::Stake;
use types::TransactionLocator;

// The bytes of a stretch.
pub const STRETCH_BYTES: usize = 80;

// ---- the slice

// Writes the 80 bytes of a stretch.
pub fn write_stretch(
    out: &mut [u8],
    n: usize,
    locator: TransactionLocator,
    end: u64,
    blocks: u64,
    stake: Stake,
)
    requires { 80 * n + 80 ≤ length out.old }
    ensures { out.new ≡ sets out.old (80 * n) (stretch_bytes (final_stretch (as_locator locator) end blocks stake.0)) }
{
    let at = STRETCH_BYTES * n;
    let from = at + types::LOCATOR_BYTES;
    record_reference_bytes::write_locator(out, at, locator);
    base::write_u64(out, from, end);
    base::write_u64(out, from + 8, blocks);
    base::write_u64(out, from + 16, stake.0);
}

// ---- the question in bulk

// How many stretches were written, and whether more locators of the list follow.
#[derive(Clone, Copy)]
pub enum Stretches {
    // no locator follows them
    Last(u64),
    More(u64),
}

// What the bytes of a stretch are.
pub fn claims()
    ensures { Claims }
{}
