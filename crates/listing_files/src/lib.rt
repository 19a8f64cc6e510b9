// Listings of files under headings: of each file that a program's arguments name, or of one with each of them as the file of stakes. Each
// function says whether writing failed; the first such failure ends them all.
#![tactic(auto)]

ghost use Rattle.std.specs.Prelude.{◌≤◌, length, IfSome};

use list_readings_spec::FinalList;
use std::env::{Env, FillError};
use std::rt::Files;

fn print_heading<R: Print + Eprint>(rt: &R, name: &[u8]) -> bool {
    listing_io::write_failed(rt, b"== ")
        || listing_io::write_failed(rt, name)
        || listing_io::write_failed(rt, b"\n")
}

// The listing of an input, with a file of stakes.
fn run_input<R: Files + Print + Eprint>(
    rt: &R,
    input: &[u8],
    stakes: &[u8],
    list: FinalList,
) -> bool {
    match listing_io::open(rt, input) {
        Ok(mut file) => listing_run::listing(rt, &mut file, stakes, list),
        Err(error) => {
            listing_io::fail(rt, input, error);
            false
        }
    }
}

// The listing of one file, under a heading; its stakes, where it asks for a file, are those of `stakes`.
fn run_headed<R: Files + Print + Eprint>(rt: &R, name: &[u8], list: FinalList) -> bool {
    print_heading(rt, name) || run_input(rt, name, b"stakes", list)
}

// The same with the ordinary list.
pub fn run_file<R: Files + Print + Eprint>(rt: &R, name: &[u8]) -> bool {
    run_headed(rt, name, FinalList::Ordinary)
}

// Puts argument i in front: its length, or 0 where it is longer than a path; none where there is no such argument.
fn read_argument(rt: &impl Env, i: usize, path: &mut [u8]) -> Option<usize>
    ensures { IfSome result (λ n. n ≤ length path.new) }
{
    match rt.arg(i, path) {
        Ok(length) => Some(length),
        Err(FillError::TooLong) => Some(0),
        Err(FillError::NotPresent) => None,
    }
}

// None where there is no such argument.
fn run_argument<R: Env + Files + Print + Eprint>(
    rt: &R,
    i: usize,
    list: FinalList,
) -> Option<bool> {
    let mut path = [0u8; 4096];
    let length = read_argument(rt, i, &mut path)?;
    Some(run_headed(rt, &path[..length], list))
}

// Prints the listing of every argument's file, with the ordinary list or the wide one.
pub fn run_arguments<R: Env + Files + Print + Eprint>(rt: &R, list: FinalList) -> bool {
    for i in 1..usize::MAX {
        match run_argument(rt, i, list) {
            Some(false) => {}
            Some(true) => return true,
            None => return false,
        }
    }
    false
}

// None where there is no such argument.
fn run_table<R: Env + Files + Print + Eprint>(rt: &R, input: &[u8], i: usize) -> Option<bool> {
    let mut path = [0u8; 4096];
    let length = read_argument(rt, i, &mut path)?;
    let name = &path[..length];
    Some(print_heading(rt, name) || run_input(rt, input, name, FinalList::Ordinary))
}

// Prints the listing of one input with every argument as the file of stakes.
pub fn run_tables<R: Env + Files + Print + Eprint>(rt: &R, input: &[u8]) -> bool {
    for i in 1..usize::MAX {
        match run_table(rt, input, i) {
            Some(false) => {}
            Some(true) => return true,
            None => return false,
        }
    }
    false
}
