// References and locators read from bytes and written, at a position. Follows types.rs.
#![tactic(auto)]

ghost use Rattle.std.specs.Prelude.{◌≡◌, ◌+◌, ◌≤◌, length, take, drop};
ghost use Rattle.std.proofs.lemmas.List.Edits.{sets};
ghost use Rattle.record_reference_bytes.specs.Step.{reference_at, locator_at};
ghost use Rattle.record_spec.specs.Record.{reference_bytes, locator_bytes};
ghost use Rattle.types.specs.Values.{be_bytes, digest_bytes, as_reference, as_locator};

use committee::{AuthorityIndex, RoundNumber};
use types::{BlockDigest, BlockReference, TransactionLocator};

// ---- reading at a position

// The number of four bytes, the highest first. (Written as one sum, two of these are one load of eight bytes.)
fn read_high_u32(s: &[u8], at: usize) -> u32
    requires { at + 4 ≤ length s.now }
    ensures { be_bytes 4 result ≡ take 4 (drop at s.now) }
{
    (s[at] as u32) * 16777216
        + (s[at + 1] as u32) * 65536
        + (s[at + 2] as u32) * 256
        + (s[at + 3] as u32)
}

// The number of eight bytes, the highest first.
fn read_high_u64(s: &[u8], at: usize) -> u64
    requires { at + 8 ≤ length s.now }
    ensures { be_bytes 8 result ≡ take 8 (drop at s.now) }
{
    (read_high_u32(s, at) as u64) * 4294967296 + (read_high_u32(s, at + 4) as u64)
}

fn read_digest(s: &[u8], at: usize) -> BlockDigest
    requires { at + 32 ≤ length s.now }
    ensures { digest_bytes result ≡ take 32 (drop at s.now) }
{
    let first = read_high_u64(s, at);
    let second = read_high_u64(s, at + 8);
    let third = read_high_u64(s, at + 16);
    let fourth = read_high_u64(s, at + 24);
    BlockDigest(first, second, third, fourth)
}

pub fn read_reference(s: &[u8], at: usize) -> BlockReference
    requires { at + 48 ≤ length s.now }
    ensures { as_reference result ≡ reference_at s.now at }
{
    let authority = AuthorityIndex(base::read_u64(s, at));
    let round = RoundNumber(base::read_u64(s, at + 8));
    let digest = read_digest(s, at + 16);
    BlockReference {
        authority,
        round,
        digest,
    }
}

pub fn read_locator(s: &[u8], at: usize) -> TransactionLocator
    requires { at + 56 ≤ length s.now }
    ensures { as_locator result ≡ locator_at s.now at }
{
    let block = read_reference(s, at);
    let offset = base::read_u64(s, at + types::REFERENCE_BYTES);
    TransactionLocator { block, offset }
}

// ---- writing at a position

// The two bytes of a number, the highest first.
fn write_high_u16(s: &mut [u8], at: usize, v: u16)
    requires { at + 2 ≤ length s.old }
    ensures { s.new ≡ sets s.old at (be_bytes 2 v) }
{
    s[at] = (v / 256) as u8;
    s[at + 1] = (v % 256) as u8;
}

// The four bytes of a number, the highest first.
fn write_high_u32(s: &mut [u8], at: usize, v: u32)
    requires { at + 4 ≤ length s.old }
    ensures { s.new ≡ sets s.old at (be_bytes 4 v) }
{
    write_high_u16(s, at, (v / 65536) as u16);
    write_high_u16(s, at + 2, (v % 65536) as u16);
}

// The eight bytes of a number, the highest first.
fn write_high_u64(s: &mut [u8], at: usize, v: u64)
    requires { at + 8 ≤ length s.old }
    ensures { s.new ≡ sets s.old at (be_bytes 8 v) }
{
    write_high_u32(s, at, (v / 4294967296) as u32);
    write_high_u32(s, at + 4, (v % 4294967296) as u32);
}

fn write_digest(s: &mut [u8], at: usize, digest: BlockDigest)
    requires { at + 32 ≤ length s.old }
    ensures { s.new ≡ sets s.old at (digest_bytes digest) }
{
    write_high_u64(s, at, digest.0);
    write_high_u64(s, at + 8, digest.1);
    write_high_u64(s, at + 16, digest.2);
    write_high_u64(s, at + 24, digest.3);
}

// The 48 bytes of a reference.
pub fn write_reference(s: &mut [u8], at: usize, block: BlockReference)
    requires { at + 48 ≤ length s.old }
    ensures { s.new ≡ sets s.old at (reference_bytes (as_reference block)) }
{
    base::write_u64(s, at, block.authority.0);
    base::write_u64(s, at + 8, block.round.0);
    write_digest(s, at + 16, block.digest);
}

// The 56 bytes of a locator.
pub fn write_locator(s: &mut [u8], at: usize, locator: TransactionLocator)
    requires { at + 56 ≤ length s.old }
    ensures { s.new ≡ sets s.old at (locator_bytes (as_locator locator)) }
{
    write_reference(s, at, locator.block);
    base::write_u64(s, at + types::REFERENCE_BYTES, locator.offset);
}
