// The lines of a record's events.
#![tactic(auto)]

ghost use Rattle.std.specs.Prelude.{◌≡◌, ◌*◌, ◌≤◌, eqb, length};
ghost use Rattle.base.specs.Lists.{pick};
ghost use Rattle.listing_text.specs.Text.{Wrote};
ghost use Rattle.listing_events.specs.Events.{event_lines, processed_in};

// How many bytes were put, and how many of the events are processed ones.
#[derive(Clone, Copy)]
pub struct Printed {
    pub put: usize,
    pub processed: u64,
}

fn one_if_processed(kind: u64) -> u64
    ensures { result ≡ pick (eqb kind 1) 1 0 }
{
    if kind == 1 { 1 } else { 0 }
}

// Puts the lines of the first n events of record k in front.
pub fn put_events(out: &mut [u8], k: u64, events: &[u64], n: usize) -> Printed
    requires { (3 * n ≤ length events.now) × (128 * n ≤ length out.old) }
    ensures wrote { Wrote out.old out.new 0 result.put (event_lines k n events.now) }
    ensures processed_value { result.processed ≡ processed_in n events.now }
{
    let mut at = 0;
    let mut processed: u64 = 0;
    for j in 0..n {
        let i = 3 * j;
        at = listing_lines::put_event(out, at, events[i], k, events[i + 1], events[i + 2]);
        processed += one_if_processed(events[i]);
    }
    Printed { put: at, processed }
}
