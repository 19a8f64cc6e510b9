// Prints the listing of one input whose member count is 255: with the file `stakes`, then with each file that its arguments name.
#![tactic(auto)]

use std::process::ExitCode;

fn main(rt: HostRuntime) -> ExitCode {
    let failed = listing_files::run_file(&rt, b"input.bin")
        || listing_files::run_tables(&rt, b"input.bin");
    ExitCode::from(u8::from(failed))
}
