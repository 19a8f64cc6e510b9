// Committees, votes of members, a network's own stakes, and the blast calendar.
ghost use Rattle.std.specs.Prelude.{◌≡◌};
ghost use Rattle.committee.specs.Committee.{quorum_of, valid_of};
ghost use Rattle.host_calls.specs.Calls.{encoded, flag, new_committee_call};
ghost use Rattle.host_add.specs.Add.{add_call};
ghost use Rattle.host_calendar.specs.Calendar.{is_open_call, next_open_call};
ghost use Rattle.host_stakes.specs.LoadStakes.{load_stakes_call};

// Sets a committee: its total stake.
#[unsafe(no_mangle)]
pub extern "C" fn lomkhvide_new_committee(stakes: &[u8]) -> u64
    ensures { result ≡ encoded (new_committee_call stakes.now) }
{
    host_committee::new_committee(stakes)
}

// Whether an amount of stake is quorum of a total: 1 or 0.
#[unsafe(no_mangle)]
pub extern "C" fn lomkhvide_is_quorum(total: u64, amount: u64) -> u64
    ensures { result ≡ flag (quorum_of total amount) }
{
    host_committee::is_quorum(total, amount)
}

// Whether it is valid: 1 or 0.
#[unsafe(no_mangle)]
pub extern "C" fn lomkhvide_is_valid(total: u64, amount: u64) -> u64
    ensures { result ≡ flag (valid_of total amount) }
{
    host_committee::is_valid(total, amount)
}

// Puts a vote into an aggregator of three words: what the vote did, 0 to 4 (host_add).
#[unsafe(no_mangle)]
pub extern "C" fn lomkhvide_add(stakes: &[u8], aggregator: &mut [u8], voter: u64) -> u64
    ensures value { result ≡ encoded (add_call stakes.now aggregator.old voter).answer }
    ensures aggregator_after { aggregator.new ≡ (add_call stakes.now aggregator.old voter).aggregator }
{
    host_add::add(stakes, aggregator, voter)
}

// Loads a network's own stakes from the bytes of its file: the number of members, whose stakes stand at the front, a word each.
#[unsafe(no_mangle)]
pub extern "C" fn lomkhvide_load_stakes(file: &[u8], stakes: &mut [u8]) -> u64
    ensures value { result ≡ encoded (load_stakes_call file.now stakes.old).answer }
    ensures stakes_after { stakes.new ≡ (load_stakes_call file.now stakes.old).stakes }
{
    host_stakes::load_stakes(file, stakes)
}

// Whether loading is open at a time: 1 or 0.
#[unsafe(no_mangle)]
pub extern "C" fn lomkhvide_is_open(calendar: &[u8], time: u64) -> u64
    ensures { result ≡ encoded (is_open_call calendar.now time) }
{
    host_calendar::is_open(calendar, time)
}

// The first open second at or after a time: 1 where it was written, 0 where there is none.
#[unsafe(no_mangle)]
pub extern "C" fn lomkhvide_next_open(calendar: &[u8], time: u64, found: &mut [u8]) -> u64
    ensures value { result ≡ encoded (next_open_call calendar.now time found.old).answer }
    ensures found_after { found.new ≡ (next_open_call calendar.now time found.old).found }
{
    host_calendar::next_open(calendar, time, found)
}
