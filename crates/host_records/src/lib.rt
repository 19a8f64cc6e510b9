// What the host's calls that write a record are made of.
#![tactic(auto)]

ghost use Rattle.std.specs.Prelude.{◌≡◌};
ghost use Rattle.std.proofs.Math.Option.{some};
ghost use Rattle.draft_spec.specs.Writing.{write_timed, write_record};
ghost use Rattle.draft_size.specs.Asked.{requested};
ghost use Rattle.host_calls.specs.Calls.{encoded};

use committee::{AuthorityIndex, RoundNumber};

pub fn write_record_of(
    author: u64,
    round: u64,
    digest: &[u8],
    mark: u64,
    includes: &[u8],
    statements: &[u8],
    out: &mut [u8],
) -> u64
    ensures value { result ≡ encoded (write_record (requested author round digest.now mark includes.now statements.now) out.old).answer }
    ensures out_after { out.new ≡ (write_record (requested author round digest.now mark includes.now statements.now) out.old).out }
{
    match draft_writer::write_record(
        AuthorityIndex(author),
        RoundNumber(round),
        digest,
        mark,
        includes,
        statements,
        out,
    ) {
        Ok(length) => length as u64,
        Err(refusal) => host_calls::refused(refusal), // no byte is written
    }
}

pub fn write_timed_record_of(
    author: u64,
    round: u64,
    digest: &[u8],
    mark: u64,
    time: u64,
    includes: &[u8],
    statements: &[u8],
    out: &mut [u8],
) -> u64
    ensures value { result ≡ encoded (write_timed (some time) (requested author round digest.now mark includes.now statements.now) out.old).answer }
    ensures out_after { out.new ≡ (write_timed (some time) (requested author round digest.now mark includes.now statements.now) out.old).out }
{
    match draft_writer::write_timed_record(
        AuthorityIndex(author),
        RoundNumber(round),
        digest,
        mark,
        time,
        includes,
        statements,
        out,
    ) {
        Ok(length) => length as u64,
        Err(refusal) => host_calls::refused(refusal),
    }
}
