// The blast calendar: weekly windows in which quarries fire and no station may load a change.
// A calendar is words, two a window: its start and its end (excluded) in seconds of the week. No function loops over seconds.
#![tactic(auto)]

ghost use Rattle.std.specs.Prelude.{◌≡◌, true, ◌+◌, ◌<◌};
ghost use Rattle.calendar_windows.specs.Calendar.{week, windows, good_calendar, FirstOpen, ask_open, ask_next_open};
ghost use Rattle.calendar_question.specs.Answers.{as_open, as_next_open};
ghost use Rattle.calendar_windows.specs.Free.{Free};

use base::Refusal;
use calendar_windows::WEEK;

// The most words of a calendar: 64 windows, two each.
pub const MAX_WORDS: usize = 128;

// The last second of the count.
const LAST_SECOND: u64 = 18446744073709551615;

// Whether the windows are at most 64, each in the week, ascending and disjoint. Windows may touch.
pub fn is_good(calendar: &[u64]) -> bool
    ensures { result ≡ good_calendar calendar.now }
{
    if calendar.len() % 2 != 0 {
        return false;
    }
    if MAX_WORDS < calendar.len() {
        return false;
    }
    let mut last_end = 0;
    let mut i = 0;
    while i < calendar.len() {
        let start = calendar[i];
        let end = calendar[i + 1];
        if start < last_end {
            return false;
        }
        if end <= start {
            return false;
        }
        if WEEK < end {
            return false;
        }
        last_end = end;
        i += 2;
    }
    true
}

// Whether loading is open at a time.
pub fn is_open(calendar: &[u64], time: u64) -> Result<bool, Refusal>
    ensures { as_open result ≡ ask_open calendar.now time }
{
    if !is_good(calendar) {
        return Err(Refusal::BrokenCalendar);
    }
    let second = calendar_windows::week_second(time);
    if calendar_windows::free_from(calendar, second) == second {
        return Ok(true);
    }
    Ok(false)
}

// The seconds from a time to the first open one, where `opening` is the first second of the week that lies in no window.
fn wait(calendar: &[u64], time: u64, opening: u64) -> u64
    requires { (good_calendar calendar.now ≡ true) × (Free (windows calendar.now) 0 opening × (opening < week)) }
    ensures { FirstOpen (windows calendar.now) time (time + result) }
{
    let second = calendar_windows::week_second(time);
    let free = calendar_windows::free_from(calendar, second);
    if free < WEEK {
        return free - second;
    }
    WEEK - second + opening
}

// The first open second at or after a time, or none.
pub fn next_open(calendar: &[u64], time: u64) -> Result<Option<u64>, Refusal>
    ensures { as_next_open result ≡ ask_next_open calendar.now time }
{
    if !is_good(calendar) {
        return Err(Refusal::BrokenCalendar);
    }
    let opening = calendar_windows::free_from(calendar, 0);
    if WEEK <= opening {
        return Ok(None);
    }
    let seconds = wait(calendar, time, opening);
    if LAST_SECOND - time < seconds {
        return Ok(None);
    }
    Ok(Some(time + seconds))
}
