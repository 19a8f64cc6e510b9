// The record of a block: well formed or not, and its parts. Follows types.rs.
#![tactic(auto)]

ghost use Rattle.std.specs.Prelude.{◌≡◌, ◌<◌, length, get_or, true};
ghost use Rattle.record_spec.specs.Record.{well_formed, block_in, time_in, no_reference};
ghost use Rattle.types.specs.Values.{as_reference};
ghost use Rattle.record_reader.specs.Values.{as_time};

use committee::AuthorityIndex;
use types::BlockReference;

// The most includes and the most statements of a record.
pub const MAX_INCLUDES: usize = 256;

pub const MAX_STATEMENTS: usize = 1024;

// The record is not malformed (20).
pub fn well_formed(rec: &[u8]) -> bool
    ensures { result ≡ well_formed rec.now }
{
    if rec.len() < record_edition::HEAD_BYTES {
        return false;
    }
    if 1 < rec[48] {
        return false;
    }
    let includes = base::read_u16(rec, 49) as usize;
    if MAX_INCLUDES < includes {
        return false;
    }
    let statements = base::read_u16(rec, 51) as usize;
    if MAX_STATEMENTS < statements {
        return false;
    }
    if !record_edition::edition_formed(rec) {
        return false;
    }
    let body = record_edition::body_start(rec);
    if rec.len() - body < includes * types::REFERENCE_BYTES {
        return false;
    }
    record_statement::statements_only(rec, body + includes * types::REFERENCE_BYTES, statements)
}

// Of a well-formed record: its reference.
pub fn reference(rec: &[u8]) -> BlockReference
    requires { well_formed rec.now ≡ true }
    ensures { as_reference result ≡ (block_in rec.now).reference }
{
    record_reference_bytes::read_reference(rec, 0)
}

// Its author alone.
pub fn author(rec: &[u8]) -> AuthorityIndex
    requires { well_formed rec.now ≡ true }
    ensures { result.0 ≡ (block_in rec.now).reference.authority }
{
    AuthorityIndex(base::read_u64(rec, 0))
}

// Its epoch mark.
pub fn epoch_changed(rec: &[u8]) -> bool
    requires { well_formed rec.now ≡ true }
    ensures { result ≡ (block_in rec.now).marked }
{
    rec[48] == 1
}

// The number of its includes.
pub fn include_count(rec: &[u8]) -> usize
    requires { well_formed rec.now ≡ true }
    ensures { result ≡ length (block_in rec.now).includes }
{
    base::read_u16(rec, 49) as usize
}

// Its include of that index.
pub fn include(rec: &[u8], k: usize) -> BlockReference
    requires { (well_formed rec.now ≡ true) × (k < length (block_in rec.now).includes) }
    ensures { as_reference result ≡ get_or (block_in rec.now).includes k no_reference }
{
    record_reference_bytes::read_reference(
        rec,
        record_edition::body_start(rec) + k * types::REFERENCE_BYTES,
    )
}

// The time of its creation, in nanoseconds, where it has one.
pub fn creation_time(rec: &[u8]) -> Option<u64>
    requires { well_formed rec.now ≡ true }
    ensures { as_time result ≡ time_in rec.now }
{
    if rec[53] != 2 {
        return None;
    }
    Some(base::read_u64(rec, record_edition::HEAD_BYTES))
}

// The number of its statements.
pub fn statement_count(rec: &[u8]) -> usize
    requires { well_formed rec.now ≡ true }
    ensures { result ≡ length (block_in rec.now).statements }
{
    base::read_u16(rec, 51) as usize
}
