// The engine's calls for a host in Rust or C, over numbers and byte slices.
// A call answers one word: below 2^63 it is the answer, and 2^63 + n is refusal n (`encoded` in host_calls, specs/Calls).
#![tactic(auto)]

pub mod finals;
pub mod questions;
pub mod records;
pub mod stakes;
