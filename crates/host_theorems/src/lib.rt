// The mission's third statement of the calls that a host makes: `lomkhvide_feed`, `lomkhvide_finality`, `lomkhvide_pending_stake` and
// `lomkhvide_pending_voters`, and both lists, one by one and in bulk. The function does nothing: its contract is the statement.
#![tactic(auto)]

ghost use Rattle.host_theorems.specs.Statement.{HostStatement};

pub fn host_statement()
    ensures { HostStatement }
{}
