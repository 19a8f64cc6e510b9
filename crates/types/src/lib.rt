// References, locators and ranges of locators, and their order. Follows types.rs.
#![tactic(auto)]

ghost use Rattle.std.specs.Prelude.{◌≡◌, ◌<◌};
ghost use Rattle.record_spec.specs.Reference.{new_range, one_range, locator_before};
ghost use Rattle.types.specs.Values.{digest_bytes, as_reference, as_locator, as_range, word_order, key_order, reference_order, locator_order};

use committee::{AuthorityIndex, RoundNumber};
use std::cmp::Ordering;

// The bytes of a reference, and of a locator.
pub const REFERENCE_BYTES: usize = 48;

pub const LOCATOR_BYTES: usize = 56;

// No vote reaches the last offset.
pub const LAST_OFFSET: u64 = 18446744073709551615;

// The most blocks of a store.
pub const MAX_BLOCKS: usize = 1024;

// The 32 bytes of a digest as four words, the highest byte first, so that comparing words is comparing bytes.
#[derive(Clone, Copy)]
pub struct BlockDigest(pub u64, pub u64, pub u64, pub u64);

#[derive(Clone, Copy)]
pub struct BlockReference {
    pub authority: AuthorityIndex,
    pub round: RoundNumber,
    pub digest: BlockDigest,
}

#[derive(Clone, Copy)]
pub struct TransactionLocator {
    pub block: BlockReference,
    pub offset: u64,
}

#[derive(Clone, Copy)]
pub struct TransactionLocatorRange {
    pub block: BlockReference,
    pub offset_start_inclusive: u64,
    pub offset_end_exclusive: u64,
}

impl TransactionLocatorRange {
    // Range ends stay below it.
    pub const MAX_LEN: u64 = 1048576;

    pub fn new(
        block: BlockReference,
        offset_start_inclusive: u64,
        offset_end_exclusive: u64,
    ) -> Self
        ensures { as_range result ≡ new_range (as_reference block) offset_start_inclusive offset_end_exclusive }
    {
        TransactionLocatorRange {
            block,
            offset_start_inclusive,
            offset_end_exclusive,
        }
    }

    // The range of one locator. (The accept at the last offset is refused, so that this end fits.)
    pub fn one(locator: TransactionLocator) -> Self
        requires { locator.offset < 18446744073709551615 }
        ensures { as_range result ≡ one_range (as_locator locator) }
    {
        let block = locator.block;
        TransactionLocatorRange {
            block,
            offset_start_inclusive: locator.offset,
            offset_end_exclusive: locator.offset + 1,
        }
    }
}

// Compares two numbers.
fn compare_words(a: u64, b: u64) -> Ordering
    ensures { result ≡ word_order a b }
{
    if a == b {
        return Ordering::Equal;
    }
    if a < b {
        return Ordering::Less;
    }
    Ordering::Greater
}

fn compare_digests(a: BlockDigest, b: BlockDigest) -> Ordering
    ensures { result ≡ key_order (digest_bytes a) (digest_bytes b) }
{
    if a.0 != b.0 {
        return compare_words(a.0, b.0);
    }
    if a.1 != b.1 {
        return compare_words(a.1, b.1);
    }
    if a.2 != b.2 {
        return compare_words(a.2, b.2);
    }
    compare_words(a.3, b.3)
}

// Compares two references: by round, authority, digest.
pub fn compare(a: BlockReference, b: BlockReference) -> Ordering
    ensures { result ≡ reference_order (as_reference a) (as_reference b) }
{
    if a.round.0 != b.round.0 {
        return compare_words(a.round.0, b.round.0);
    }
    if a.authority.0 != b.authority.0 {
        return compare_words(a.authority.0, b.authority.0);
    }
    compare_digests(a.digest, b.digest)
}

// Compares two locators: by reference, offset.
pub fn compare_locators(a: TransactionLocator, b: TransactionLocator) -> Ordering
    ensures { result ≡ locator_order (as_locator a) (as_locator b) }
{
    let first = compare(a.block, b.block);
    match first {
        Ordering::Equal => compare_words(a.offset, b.offset),
        Ordering::Less => Ordering::Less,
        Ordering::Greater => Ordering::Greater,
    }
}

// Whether a locator comes before another.
pub fn locator_before(a: TransactionLocator, b: TransactionLocator) -> bool
    ensures { result ≡ locator_before (as_locator a) (as_locator b) }
{
    let order = compare_locators(a, b);
    match order {
        Ordering::Less => true,
        Ordering::Equal => false,
        Ordering::Greater => false,
    }
}
