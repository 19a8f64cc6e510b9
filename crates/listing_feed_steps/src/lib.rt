// The records of an input of `listing`, one at a time: what stands next is fed, its lines are put, and it is counted.
#![tactic(auto)]

ghost use Rattle.std.specs.Prelude.{◌*◌, ◌≤◌, length};
ghost use Rattle.base.specs.Refusals.{refusal_number};
ghost use Rattle.listing_io.specs.Sizes.{size_at_most};
ghost use Rattle.listing_spec.specs.Output.{framed, refused_with, accepted_with, told};
ghost use Rattle.listing_feed_steps.specs.Steps.{feeding_of, frame_read, Counted, CountedAfter, Step, AnyStep};
ghost use Rattle.listing_feed_steps.specs.Feeds.{engine, FedFrom};

use base::Refusal;
use listing_input::Size;

// The bytes that the lines of a record may take: 2,730 events of 128 bytes.
pub const LINES_BYTES: usize = 349440;

// What a feed is lent: as many words to work in as the table has, and words for events.
const WORK_WORDS: usize = 6145;

const EVENT_WORDS: usize = 8192;

// The number of the next record, what was counted, how many bytes were put, and whether the reading has ended.
#[derive(Clone, Copy)]
pub struct Fed {
    pub number: u64,
    pub accepted: u64,
    pub refused: u64,
    pub processed: u64,
    pub put: usize,
    pub ended: bool,
}

// Puts that the record is refused, and counts it.
fn refused(out: &mut [u8], done: Fed, refusal: Refusal, ended: bool) -> Fed
    requires { Counted done × (349440 ≤ length out.old) }
    ensures any_step { AnyStep (λ s w. refused_with (feeding_of done s w) (refusal_number refusal) ended) out.old out.new result }
    ensures counted_after { CountedAfter done result }
{
    let put = listing_lines::put_refused(out, 0, done.number, refusal.number());
    Fed {
        number: done.number + 1,
        accepted: done.accepted,
        refused: done.refused + 1,
        processed: done.processed,
        put,
        ended,
    }
}

// Puts the events of the record, and counts it.
fn accepted(out: &mut [u8], done: Fed, events: &[u64], n: usize) -> Fed
    requires { (Counted done × (349440 ≤ length out.old)) × ((3 * n ≤ length events.now) × (n ≤ 2730)) }
    ensures any_step { AnyStep (λ s w. accepted_with (feeding_of done s w) events.now n) out.old out.new result }
    ensures counted_after { CountedAfter done result }
{
    let printed = listing_events::put_events(out, done.number, events, n);
    Fed {
        number: done.number + 1,
        accepted: done.accepted + 1,
        refused: done.refused,
        processed: done.processed + printed.processed,
        put: printed.put,
        ended: false,
    }
}

// Feeds the record, puts its lines and counts it.
fn feed_record(
    stakes: &[u64],
    store: &mut [u8],
    table: &mut [u64],
    rec: &[u8],
    out: &mut [u8],
    done: Fed,
) -> Fed
    requires { Counted done × (349440 ≤ length out.old) }
    ensures step { Step (told stakes.now (feeding_of done store.old table.old) (framed rec.now)) out.old out.new store.new table.new result }
    ensures counted_after { CountedAfter done result }
    ensures fed_from { FedFrom stakes.now (engine store.old table.old) store.new table.new }
{
    let mut work = [0u64; WORK_WORDS];
    let mut events = [0u64; EVENT_WORDS];
    let answer = feed_single::feed(stakes, store, table, &mut work, &mut events, rec);
    match answer {
        Ok(n) => accepted(out, done, &events, n as usize),
        Err(refusal) => refused(out, done, refusal, false),
    }
}

// What stands next in the input: its record, which was read to the front of `rec`, is fed; where there is none the reading ends, and so it does
// where the length was refused, with 20.
pub fn step(
    stakes: &[u64],
    store: &mut [u8],
    table: &mut [u64],
    size: Size,
    rec: &[u8],
    out: &mut [u8],
    done: Fed,
) -> Fed
    requires { (Counted done × (349440 ≤ length out.old)) × size_at_most (length rec.now) size }
    ensures step { Step (told stakes.now (feeding_of done store.old table.old) (frame_read size rec.now)) out.old out.new store.new table.new result }
    ensures counted_after { CountedAfter done result }
    ensures fed_from { FedFrom stakes.now (engine store.old table.old) store.new table.new }
{
    match size {
        Size::End => Fed {
            number: done.number,
            accepted: done.accepted,
            refused: done.refused,
            processed: done.processed,
            put: 0,
            ended: true,
        },
        Size::Broken => refused(out, done, Refusal::Malformed, true),
        Size::Of(n) => feed_record(stakes, store, table, &rec[..n], out, done),
    }
}
