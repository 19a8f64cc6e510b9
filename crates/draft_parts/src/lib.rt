// The parts of one record of our own written: its front, counts, edition and time, and statements. Follows types.rs.
#![tactic(auto)]

ghost use Rattle.std.specs.Prelude.{◌≡◌, true, ◌+◌, ◌≤◌, length};
ghost use Rattle.std.proofs.lemmas.List.Edits.{sets};
ghost use Rattle.record_spec.specs.Record.{time_bytes};
ghost use Rattle.record_reader.specs.Values.{as_time};
ghost use Rattle.draft_joined.specs.Step.{joined_from};
ghost use Rattle.draft_size.specs.Step.{bytes_in, writable, front_bytes, count_bytes, part_bytes};

use committee::{AuthorityIndex, RoundNumber};

// The author, the round and the digest.
pub fn write_front(out: &mut [u8], author: AuthorityIndex, round: RoundNumber, digest: &[u8])
    requires { (length digest.now ≡ 32) × (48 ≤ length out.old) }
    ensures { out.new ≡ sets out.old 0 (front_bytes author.0 round.0 digest.now) }
{
    base::write_u64(out, 0, author.0);
    base::write_u64(out, 8, round.0);
    base::copy_to(out, 16, digest);
}

// The mark and the counts.
pub fn write_counts(out: &mut [u8], mark: u8, includes: u16, statements: u16)
    requires { 53 ≤ length out.old }
    ensures { out.new ≡ sets out.old 48 (count_bytes mark includes statements) }
{
    out[48] = mark;
    base::write_u16(out, 49, includes);
    base::write_u16(out, 51, statements);
}

// How many bytes the time takes.
pub fn time_size(time: Option<u64>) -> usize
    ensures { result ≡ length (time_bytes (as_time time)) }
{
    match time {
        Some(_) => 16,
        None => 0,
    }
}

// The three bytes of the edition, and the time where one is given.
pub fn write_edition(out: &mut [u8], time: Option<u64>)
    requires { 56 + length (time_bytes (as_time time)) ≤ length out.old }
    ensures { out.new ≡ sets out.old 53 (part_bytes (as_time time)) }
{
    let Some(nanoseconds) = time else {
        out[53] = 0;
        out[54] = 0;
        out[55] = 0;
        return;
    };
    out[53] = 2;
    out[54] = 0;
    out[55] = 0;
    base::write_u64(out, record_edition::HEAD_BYTES, nanoseconds);
    base::write_u64(out, 64, 0);
}

// The statements, from a position on.
pub fn write_statements(out: &mut [u8], from: usize, s: &[u8])
    requires { (writable (joined_from s.now 0) ≡ true) × (from + length (bytes_in (joined_from s.now 0)) ≤ length out.old) }
    ensures { out.new ≡ sets out.old from (bytes_in (joined_from s.now 0)) }
{
    let mut at: usize = 0;
    let mut to = from;
    while at < s.len() {
        let Some((statement, next)) = draft_joined::next_joined(s, at) else {
            // Never so: they were measured.
            return;
        };
        let Some(size) = draft_statements::statement_size(statement) else {
            // Never so.
            return;
        };
        draft_statements::write_statement(out, to, s, statement);
        to = to + size;
        at = next;
    }
}
