// Weekly windows in which quarries fire: definitions, what the answers of `blast_calendar` mean, the second of the week of a time, and the
// first one that lies in no window.
#![tactic(auto)]

ghost use Rattle.std.specs.Prelude.{◌≡◌, true};
ghost use Rattle.base.specs.Lists.{pick};
ghost use Rattle.calendar_windows.specs.Calendar.{windows, within, good_calendar, week_second};
ghost use Rattle.calendar_windows.specs.Free.{Free};
ghost use Rattle.calendar_windows.specs.Claims.{Claims};
ghost use Rattle.calendar_windows.specs.Cards.{Cards};

// The seconds of a week.
pub const WEEK: u64 = 604800;

// Second 0 of the count since 1970 is this second of its week, a Thursday: weeks begin on Mondays.
const THURSDAY: u64 = 259200;

// The second of the week of a time.
pub fn week_second(time: u64) -> u64
    ensures { result ≡ week_second time }
{
    (time % WEEK + THURSDAY) % WEEK
}

// The end of a window where the second lies in it, else the second.
fn past(start: u64, end: u64, second: u64) -> u64
    ensures { result ≡ pick (within second (record { start = start; end = end })) end second }
{
    if start <= second && second < end {
        return end;
    }
    second
}

// The first second of the week from `second` on that lies in no window; the week's end where they last until then.
pub fn free_from(calendar: &[u64], second: u64) -> u64
    requires { good_calendar calendar.now ≡ true }
    ensures { Free (windows calendar.now) second result }
{
    let mut free = second;
    let mut i = 0;
    while i < calendar.len() {
        free = past(calendar[i], calendar[i + 1], free);
        i += 2;
    }
    free
}

// What the answers mean. The function does nothing: its contract is the claims, so that no check passes without their proofs.
pub fn claims()
    ensures { Claims }
{}

// The calendar at its edges, evaluated.
pub fn cards()
    ensures { Cards }
{}
