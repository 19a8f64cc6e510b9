// Replays the fixed sample: lists with the Rust's answers, made by reference/run sample, as `listing` prints them with the wide list.
#![tactic(auto)]

use list_readings_spec::FinalList;
use std::process::ExitCode;

fn main(rt: HostRuntime) -> ExitCode {
    let failed = listing_files::run_arguments(&rt, FinalList::Wide);
    ExitCode::from(u8::from(failed))
}
