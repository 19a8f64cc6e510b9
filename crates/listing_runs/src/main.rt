// Prints the listing of each file that its arguments name, under a heading.
#![tactic(auto)]

use list_readings_spec::FinalList;
use std::process::ExitCode;

fn main(rt: HostRuntime) -> ExitCode {
    let failed = listing_files::run_arguments(&rt, FinalList::Ordinary);
    ExitCode::from(u8::from(failed))
}
