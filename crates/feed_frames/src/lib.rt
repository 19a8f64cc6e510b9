// Records one after the other, each after its length in four bytes, as a call with many records is lent them.
#![tactic(auto)]

ghost use Rattle.std.specs.Prelude.{◌≡◌, ◌<◌, length};
ghost use Rattle.feed_frames.specs.Frames.{records_in};
ghost use Rattle.feed_frames.specs.Next.{NextRecord};

// Where a record starts and ends.
#[derive(Clone, Copy)]
pub struct Frame {
    pub start: usize,
    pub end: usize,
}

// The record whose length stands at `at`. Where the framing is broken, it is one of no bytes, at the end.
pub fn next_record(records: &[u8], at: usize) -> Frame
    requires { at < length records.now }
    ensures { NextRecord records.now at result }
{
    if records.len() - at < 4 {
        return Frame {
            start: records.len(),
            end: records.len(),
        };
    }
    let size = base::read_u32(records, at) as usize;
    let start = at + 4;
    if records.len() - start < size {
        return Frame {
            start: records.len(),
            end: records.len(),
        };
    }
    Frame {
        start,
        end: start + size,
    }
}

// How many records there are.
pub fn record_count(records: &[u8]) -> usize
    ensures { result ≡ length (records_in records.now) }
{
    let mut at: usize = 0;
    let mut n: usize = 0;
    while at < records.len() {
        let next = next_record(records, at);
        at = next.end;
        n += 1;
    }
    n
}
