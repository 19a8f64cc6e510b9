// Records that are run, a line each: what is sent back for a record by itself, its runs of shares, its event words. The committee has one
// member, so an include of round - 1 holds quorum.
#![tactic(auto)]

ghost use Rattle.std.specs.Prelude.{◌≡◌, true};
ghost use Rattle.record_spec.specs.Record.{well_formed};

use base::Refusal;
use std::io;

fn print(rt: &impl Print, text: &[u8]) -> io::Result<()> {
    rt.write_all(text)
}

fn print_number(rt: &impl Print, n: u64) -> io::Result<()> {
    rt.print(n)
}

// The first refusal of a record by itself, or none.
fn verify(stakes: &[u64], rec: &[u8]) -> Result<(), Refusal> {
    let Ok(total) = committee::new_committee(stakes) else {
        return Err(Refusal::BrokenCommittee);
    };
    if !record_reader::well_formed(rec) {
        return Err(Refusal::Malformed);
    }
    record_clock::head_refusal(stakes, rec)?;
    record_clock::body_refusal(stakes, total, rec)
}

// A line of a card on a record.
fn judge(rt: &impl Print, card: &[u8], rec: &[u8]) -> io::Result<()> {
    let sole = [1u64];
    print(rt, card)?;
    match verify(&sole, rec) {
        Ok(()) => print(rt, b": taken\n")?,
        Err(refusal) => {
            print(rt, b": refused ")?;
            print_number(rt, refusal.number())?;
            print(rt, b"\n")?;
        }
    }
    Ok(())
}

// At how many lengths a record that is cut is well formed.
fn formed_lengths(rec: &[u8]) -> u64 {
    let mut formed: u64 = 0;
    for n in 0..rec.len() {
        if record_reader::well_formed(&rec[0..n]) {
            formed += 1;
        }
    }
    formed
}

fn print_run(rt: &impl Print, start: u64, end: u64) -> io::Result<()> {
    print(rt, b" ")?;
    print_number(rt, start)?;
    print(rt, b"..")?;
    print_number(rt, end)
}

// Its runs of shares.
fn print_runs(rt: &impl Print, rec: &[u8]) -> io::Result<()>
    requires { well_formed rec.now ≡ true }
{
    let mut cursor = record_cursor::first_statement(rec);
    loop {
        let Some(run) = record_shared_ranges::next_shared_range(rec, cursor) else {
            return Ok(());
        };
        print_run(rt, run.start, run.end)?;
        cursor = run.next;
    }
}

fn malformed(rt: &impl Print) -> io::Result<()> {
    let none = [0u8; 0];
    judge(rt, b"no bytes", &none)?;
    let mut mark = [0u8; 56];
    mark[0] = 1;
    mark[48] = 2;
    judge(
        rt,
        b"an epoch mark of 2, and an author that is not known",
        &mark,
    )?;
    let mut zero = [0u8; 56];
    zero[55] = 1;
    judge(rt, b"a byte that is not zero", &zero)?;
    let mut includes = [0u8; 12392];
    includes[49] = 1;
    includes[50] = 1;
    judge(rt, b"257 includes", &includes)?;
    let mut statements = [0u8; 3131];
    statements[51] = 1;
    statements[52] = 4;
    judge(rt, b"1025 shares", &statements)?;
    let mut kind = [0u8; 59];
    kind[51] = 1;
    kind[56] = 4;
    judge(rt, b"a statement of kind 4", &kind)?;
    let mut reject = [0u8; 114];
    reject[51] = 1;
    reject[56] = 2;
    reject[113] = 2;
    judge(rt, b"a reject with a byte of 2", &reject)?;
    let after = [0u8; 57];
    judge(rt, b"a byte after the record", &after)
}

fn heads(rt: &impl Print) -> io::Result<()> {
    let mut rec = [0u8; 56];
    judge(rt, b"round 0", &rec)?;
    rec[0] = 1;
    judge(rt, b"an author that is not known", &rec)?;
    let mut includes = [0u8; 12344];
    includes[50] = 1;
    judge(rt, b"round 0 with 256 includes", &includes)?;
    let mut statements = [0u8; 3128];
    statements[52] = 4;
    judge(rt, b"round 0 with 1024 shares", &statements)
}

fn includes(rt: &impl Print) -> io::Result<()> {
    let mut alone = [0u8; 56];
    alone[8] = 1;
    judge(rt, b"round 1 with no include", &alone)?;
    let mut rec = [0u8; 104];
    rec[8] = 1;
    rec[49] = 1;
    judge(rt, b"round 1 over round 0", &rec)?;
    rec[64] = 1;
    judge(rt, b"round 1 over round 1", &rec)?;
    rec[56] = 1;
    judge(rt, b"the same, by an author that is not known", &rec)
}

fn ranges(rt: &impl Print) -> io::Result<()> {
    let mut rec = [0u8; 169];
    rec[8] = 1;
    rec[49] = 1;
    rec[51] = 1;
    rec[104] = 3;
    rec[161] = 255;
    rec[162] = 255;
    rec[163] = 15;
    judge(rt, b"0..1048575", &rec)?;
    rec[161] = 0;
    rec[162] = 0;
    rec[163] = 16;
    judge(rt, b"0..1048576", &rec)?;
    rec[153] = 1;
    rec[155] = 16;
    judge(rt, b"1048577..1048576", &rec)?;
    rec[163] = 0;
    rec[161] = 4;
    rec[155] = 0;
    rec[153] = 5;
    judge(rt, b"5..4", &rec)
}

fn accepts(rt: &impl Print) -> io::Result<()> {
    let mut rec = [0u8; 161];
    rec[8] = 1;
    rec[49] = 1;
    rec[51] = 1;
    rec[104] = 1;
    rec[153] = 254;
    rec[154] = 255;
    rec[155] = 255;
    rec[156] = 255;
    rec[157] = 255;
    rec[158] = 255;
    rec[159] = 255;
    rec[160] = 255;
    judge(rt, b"an accept at 2^64 - 2", &rec)?;
    rec[153] = 255;
    judge(rt, b"an accept at 2^64 - 1", &rec)?;
    print(rt, b"the same, cut at each length: well formed at ")?;
    print_number(rt, formed_lengths(&rec))?;
    print(rt, b"\n")
}

fn runs(rt: &impl Print) -> io::Result<()> {
    let mut rec = [0u8; 122];
    rec[51] = 4;
    rec[62] = 1;
    print(rt, b"shares at 0, 1, 3:")?;
    if record_reader::well_formed(&rec) {
        print_runs(rt, &rec)?;
    }
    print(rt, b"\n")
}

fn main(rt: HostRuntime) -> io::Result<()> {
    malformed(&rt)?;
    heads(&rt)?;
    includes(&rt)?;
    ranges(&rt)?;
    accepts(&rt)?;
    runs(&rt)
}
