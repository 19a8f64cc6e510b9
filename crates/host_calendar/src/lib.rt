// What the host's calls about the blast calendar are made of, over byte slices.
#![tactic(auto)]

ghost use Rattle.std.specs.Prelude.{◌≡◌, length};
ghost use Rattle.host_calls.specs.Calls.{encoded};
ghost use Rattle.host_calendar.specs.Calendar.{holds_words, is_open_call, next_open_call};

use base::Refusal;

// Puts the words of a calendar in front.
fn words_in(calendar: &[u8], held: &mut [u64]) -> Option<usize>
    requires { length held.old ≡ 128 }
    ensures { holds_words result calendar.now held.new }
{
    if calendar.len() % 8 != 0 {
        return None;
    }
    let n = calendar.len() / 8;
    if calendar_question::MAX_WORDS < n {
        return None;
    }
    words::words_of(calendar, &mut held[..n]);
    if !calendar_question::is_good(&held[..n]) {
        return None;
    }
    Some(n)
}

// Whether loading is open at a time: 1 or 0.
pub fn is_open(calendar: &[u8], time: u64) -> u64
    ensures { result ≡ encoded (is_open_call calendar.now time) }
{
    let mut held = [0u64; calendar_question::MAX_WORDS];
    let Some(n) = words_in(calendar, &mut held) else {
        return host_calls::refused(Refusal::BrokenCalendar);
    };
    match calendar_question::is_open(&held[..n], time) {
        Ok(true) => 1,
        Ok(false) => 0,
        Err(refusal) => host_calls::refused(refusal),
    }
}

// The first open second at or after a time: 1 where it was written, 0 where there is none.
pub fn next_open(calendar: &[u8], time: u64, found: &mut [u8]) -> u64
    ensures { (result ≡ encoded (next_open_call calendar.now time found.old).answer) × (found.new ≡ (next_open_call calendar.now time found.old).found) }
{
    let mut held = [0u64; calendar_question::MAX_WORDS];
    let Some(n) = words_in(calendar, &mut held) else {
        return host_calls::refused(Refusal::BrokenCalendar);
    };
    if found.len() != 8 {
        return host_calls::refused(Refusal::AnswerSlice);
    }
    match calendar_question::next_open(&held[..n], time) {
        Ok(Some(second)) => {
            base::write_u64(found, 0, second);
            1
        }
        Ok(None) => 0,
        Err(refusal) => host_calls::refused(refusal),
    }
}
