// The run of `listing` over an input that can be read: it reads, calls and writes. Where a read or a write fails it says so on standard error
// and stops, without the line `end`.
#![tactic(auto)]

ghost use Rattle.std.specs.Prelude.{◌≡◌, ◌+◌, ◌*◌, ◌<◌, ◌≤◌, true, length, IfOk};
ghost use Rattle.listing_feed_steps.specs.Steps.{Counted, CountedAfter};
ghost use Rattle.listing_feed_steps.specs.Feeds.{engine, FedFrom};
ghost use Rattle.list_readings_spec.specs.Answers.{is_ordinary};
ghost use Rattle.listing_theorems.specs.Whole.{CountedStretches, CountedList};

use base::Refusal;
use list_readings_spec::FinalList;
use listing_feed_steps::Fed;
use listing_final_lines::Stretch;
use std::io::Read;
use std::rt::Files;

// What the program lends: a store, a table, and room for the longest record.
const STORE_BYTES: usize = 65536;

const TABLE_WORDS: usize = 6145;

const RECORD_BYTES: usize = 8192;

// Why a run stops before its end.
#[derive(Clone, Copy)]
enum Stop {
    // reading failed, or there is no end
    Unread,
    // writing failed
    Unwritten,
}

// Writes the first n bytes.
fn write<R: Print + Eprint>(rt: &R, out: &[u8], n: usize) -> Result<(), Stop>
    requires { n ≤ length out.now }
{
    if listing_io::write_failed(rt, &out[..n]) {
        return Err(Stop::Unwritten);
    }
    Ok(())
}

// Reads what stands next, feeds it, and writes its lines.
fn next_record<R: Print + Eprint, I: Read>(
    rt: &R,
    input: &mut I,
    stakes: &[u64],
    store: &mut [u8],
    table: &mut [u64],
    out: &mut [u8],
    fed: Fed,
) -> Result<Fed, Stop>
    requires { Counted fed × (349440 ≤ length out.old) }
    ensures counted_after { IfOk result (CountedAfter fed) }
    ensures fed_from { FedFrom stakes.now (engine store.old table.old) store.new table.new }
{
    let mut rec = [0u8; RECORD_BYTES];
    match listing_io::read_record(input, &mut rec) {
        Ok(size) => {
            let after = listing_feed_steps::step(stakes, store, table, size, &rec, out, fed);
            write(rt, out, after.put)?;
            Ok(after)
        }
        Err(error) => {
            listing_io::fail(rt, b"standard input", error);
            Err(Stop::Unread)
        }
    }
}

// Reads and feeds every record: what was counted. The count of turns only makes the loop end: no input has so many records.
fn feed_all<R: Print + Eprint, I: Read>(
    rt: &R,
    input: &mut I,
    stakes: &[u64],
    store: &mut [u8],
    table: &mut [u64],
    out: &mut [u8],
) -> Result<Fed, Stop>
    requires { 349440 ≤ length out.old }
    ensures { FedFrom stakes.now (engine store.old table.old) store.new table.new }
{
    let mut fed = Fed {
        number: 1,
        accepted: 0,
        refused: 0,
        processed: 0,
        put: 0,
        ended: false,
    };
    for turn in 0..4503599627370494u64 {
        fed = next_record(rt, input, stakes, store, table, out, fed)?;
        if fed.ended {
            return Ok(fed);
        }
    }
    Err(Stop::Unread)
}

// Writes the lines of a stretch.
fn print_stretch<R: Print + Eprint>(rt: &R, out: &mut [u8], stretch: Stretch) -> Result<(), Stop>
    requires { (stretch.first + stretch.lines < 18446744073709551616) × (128 ≤ length out.old) }
{
    let mut done: u64 = 0;
    while done < stretch.lines {
        let part = listing_final_lines::put_lines(out, stretch, done);
        write(rt, out, part.put)?;
        done = part.done;
    }
    Ok(())
}

// Writes the lines of n stretches: how many locators were listed.
fn print_stretches<R: Print + Eprint>(
    rt: &R,
    out: &mut [u8],
    stretches: &[u8],
    n: usize,
) -> Result<u64, Stop>
    requires { (80 * n ≤ length stretches.now) × (128 ≤ length out.old) }
    ensures { IfOk result (CountedStretches stretches.now n) }
{
    let mut finals: u64 = 0;
    for i in 0..n {
        let stretch = listing_stretches::read_stretch(stretches, i);
        print_stretch(rt, out, stretch)?;
        finals = std::num::wrapping_add_u64(finals, stretch.lines);
    }
    Ok(finals)
}

// Asks for the list until no locator follows, and writes its lines: how many locators were listed. The count of turns only makes the loop end: a store of 65,536 bytes has
// fewer statements.
fn print_list<R: Print + Eprint>(
    rt: &R,
    stakes: &[u64],
    store: &[u8],
    out: &mut [u8],
    list: FinalList,
) -> Result<u64, Stop>
    requires { 128 ≤ length out.old }
    ensures { IfOk result (λ finals. is_ordinary list ≡ true → CountedList stakes.now store.now finals) }
{
    let mut stretches = [0u8; 81920];
    let mut after = None;
    let mut finals: u64 = 0;
    for turn in 0..65536u64 {
        let asked = listing_final_steps::ask(stakes, store, &mut stretches, after, list);
        let listed = print_stretches(rt, out, &stretches, asked.count)?;
        finals = std::num::wrapping_add_u64(finals, listed);
        if !asked.more {
            return Ok(finals);
        }
        after = listing_stretches::last_locator(&stretches, asked.count, after);
    }
    Err(Stop::Unread)
}

// Feeds all records from a fresh store and a table of zeros, then writes the list and the counts.
fn run<R: Print + Eprint, I: Read>(
    rt: &R,
    input: &mut I,
    stakes: &[u64],
    list: FinalList,
) -> Result<(), Stop> {
    let mut store = [0u8; STORE_BYTES];
    let mut table = [0u64; TABLE_WORDS];
    let mut out = [0u8; listing_feed_steps::LINES_BYTES];
    listing_lent::fresh_store(&mut store);
    let fed = feed_all(rt, input, stakes, &mut store, &mut table, &mut out)?;
    let finals = print_list(rt, stakes, &store, &mut out, list)?;
    let n = listing_counts::put_counts(
        &mut out,
        &table,
        fed.accepted,
        fed.refused,
        fed.processed,
        finals,
    );
    write(rt, &out, n)
}

// A refused committee has its line and an end of zeros.
fn refuse<R: Print + Eprint>(rt: &R, refusal: Refusal) -> Result<(), Stop> {
    let mut out = [0u8; 256];
    let n = listing_counts::put_refusal(&mut out, refusal.number());
    write(rt, &out, n)
}

// Reads an input and writes its lines, as far as they can be read and written; `file` names the file of stakes.
fn run_input<R: Files + Print + Eprint, I: Read>(
    rt: &R,
    input: &mut I,
    file: &[u8],
    list: FinalList,
) -> Result<(), Stop> {
    let mut stakes = [0u64; 254];
    match listing_stakes::read_committee(rt, input, file, &mut stakes) {
        Ok(Ok(count)) => run(rt, input, &stakes[..count], list),
        Ok(Err(refusal)) => refuse(rt, refusal),
        Err(error) => {
            listing_io::fail(rt, b"standard input", error);
            Err(Stop::Unread)
        }
    }
}

// Reads an input and writes its lines; `file` names the file of stakes, which the member count 255 asks for. Says whether writing failed.
pub fn listing<R: Files + Print + Eprint, I: Read>(
    rt: &R,
    input: &mut I,
    file: &[u8],
    list: FinalList,
) -> bool {
    match run_input(rt, input, file, list) {
        Ok(()) => false,
        Err(Stop::Unread) => false,
        Err(Stop::Unwritten) => true,
    }
}
