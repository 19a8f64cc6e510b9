// Prints the listing of standard input (document 01, "Reference runs"). The member count 255 asks for the file `stakes` in the folder that it
// is run in (document 02, "Five").
#![tactic(auto)]

use list_readings_spec::FinalList;
use std::process::ExitCode;

fn main(rt: HostRuntime) -> ExitCode {
    let failed = listing_run::listing(&rt, &mut rt.stdin(), b"stakes", FinalList::Ordinary);
    ExitCode::from(u8::from(failed))
}
