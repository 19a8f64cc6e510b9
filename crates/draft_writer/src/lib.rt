// Writes one record of our own from author, round, digest, mark, includes and statements, and the time of its creation where one is given.
// Follows types.rs.
#![tactic(auto)]

ghost use Rattle.std.specs.Prelude.{◌≡◌};
ghost use Rattle.std.proofs.Math.Option.{some};
ghost use Rattle.record_reader.specs.Values.{as_time};
ghost use Rattle.draft_spec.specs.Writing.{write_timed, write_record};
ghost use Rattle.draft_size.specs.Asked.{requested};
ghost use Rattle.draft_writer.specs.Answers.{as_write_answer};

use base::Refusal;
use committee::{AuthorityIndex, RoundNumber};

// Writes a record of the edition that the time says into `out` and answers its length; bytes past it stay. 51, then 50.
fn write_in(
    author: AuthorityIndex,
    round: RoundNumber,
    digest: &[u8],
    mark: u64,
    time: Option<u64>,
    includes: &[u8],
    statements: &[u8],
    out: &mut [u8],
) -> Result<usize, Refusal>
    ensures result_value { as_write_answer result ≡ (write_timed (as_time time) (requested author.0 round.0 digest.now mark includes.now statements.now) out.old).answer }
    ensures out_after { out.new ≡ (write_timed (as_time time) (requested author.0 round.0 digest.now mark includes.now statements.now) out.old).out }
{
    let Some((count, bytes)) = draft_size::measure_record(digest, mark, includes, statements) else {
        return Err(Refusal::NotWritable);
    };
    let extra = draft_parts::time_size(time);
    if out.len() < bytes {
        return Err(Refusal::TooShortToWrite);
    }
    if out.len() - bytes < extra {
        return Err(Refusal::TooShortToWrite);
    }
    draft_parts::write_front(out, author, round, digest);
    draft_parts::write_counts(
        out,
        mark as u8,
        (includes.len() / types::REFERENCE_BYTES) as u16,
        count as u16,
    );
    draft_parts::write_edition(out, time);
    base::copy_to(out, record_edition::HEAD_BYTES + extra, includes);
    draft_parts::write_statements(
        out,
        record_edition::HEAD_BYTES + extra + includes.len(),
        statements,
    );
    Ok(bytes + extra)
}

// Writes a record without a time: 51, then 50.
pub fn write_record(
    author: AuthorityIndex,
    round: RoundNumber,
    digest: &[u8],
    mark: u64,
    includes: &[u8],
    statements: &[u8],
    out: &mut [u8],
) -> Result<usize, Refusal>
    ensures result_value { as_write_answer result ≡ (write_record (requested author.0 round.0 digest.now mark includes.now statements.now) out.old).answer }
    ensures out_after { out.new ≡ (write_record (requested author.0 round.0 digest.now mark includes.now statements.now) out.old).out }
{
    write_in(author, round, digest, mark, None, includes, statements, out)
}

// Writes a record with the time of its creation, in nanoseconds: 51, then 50.
pub fn write_timed_record(
    author: AuthorityIndex,
    round: RoundNumber,
    digest: &[u8],
    mark: u64,
    time: u64,
    includes: &[u8],
    statements: &[u8],
    out: &mut [u8],
) -> Result<usize, Refusal>
    ensures result_value { as_write_answer result ≡ (write_timed (some time) (requested author.0 round.0 digest.now mark includes.now statements.now) out.old).answer }
    ensures out_after { out.new ≡ (write_timed (some time) (requested author.0 round.0 digest.now mark includes.now statements.now) out.old).out }
{
    write_in(
        author,
        round,
        digest,
        mark,
        Some(time),
        includes,
        statements,
        out,
    )
}
