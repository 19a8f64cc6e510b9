// Input and output of `listing`: what is asked of the system, and what it answers.
#![tactic(auto)]

ghost use Rattle.std.specs.Prelude.{◌≤◌, ◌≡◌, length, IfOk};
ghost use Rattle.listing_io.specs.Sizes.{size_at_most, filled_at_most};

use listing_input::Size;
use std::io::Read;
use std::rt::Files;
use std::{fs, io, str};

// Reads until all bytes are filled or the input ends: how many stand in front, fewer than were asked for where it ended.
pub fn fill<R: Read>(input: &mut R, bytes: &mut [u8]) -> io::Result<usize>
    ensures { filled_at_most (length bytes.old) result }
{
    let mut done = 0;
    while done < bytes.len() {
        let n = input.read(&mut bytes[done..])?;
        if n == 0 {
            return Ok(done);
        }
        done += n;
    }
    Ok(done)
}

// The same for the first `size` bytes.
pub fn fill_front<R: Read>(input: &mut R, bytes: &mut [u8], size: usize) -> io::Result<usize>
    requires { size ≤ length bytes.old }
    ensures { filled_at_most size result }
{
    fill(input, &mut bytes[..size])
}

// What the next four bytes say.
fn read_size<R: Read>(input: &mut R) -> io::Result<Size>
    ensures { IfOk result (size_at_most 8192) }
{
    let mut head = [0u8; 4];
    let got = fill(input, &mut head)?;
    Ok(listing_input::size_of(&head[..got]))
}

// Reads the bytes of a record of that size to the front of `rec`: one past the end is broken.
fn read_body<R: Read>(input: &mut R, rec: &mut [u8], n: usize) -> io::Result<Size>
    requires { (length rec.old ≡ 8192) × (n ≤ 8192) }
    ensures { IfOk result (size_at_most 8192) }
{
    let got = fill_front(input, rec, n)?;
    Ok(listing_input::whole_size(n, got))
}

// Reads the next record to the front of `rec`.
pub fn read_record<R: Read>(input: &mut R, rec: &mut [u8]) -> io::Result<Size>
    requires { length rec.old ≡ 8192 }
    ensures { IfOk result (size_at_most 8192) }
{
    let size = read_size(input)?;
    let Size::Of(n) = size else {
        return Ok(size);
    };
    read_body(input, rec, n)
}

// Opens the file of that name for reading. A path of the system's library is text, so a name that is none fails.
pub fn open<R: Files>(rt: &R, name: &[u8]) -> io::Result<R::File> {
    match str::from_utf8(name) {
        Ok(path) => fs::open(rt, path),
        Err(_) => Err(io::Error::from(io::ErrorKind::InvalidFilename)),
    }
}

// Writes bytes to standard output; whether that failed, which standard error is told.
pub fn write_failed<R: Print + Eprint>(rt: &R, bytes: &[u8]) -> bool {
    match rt.write_all(bytes) {
        Ok(()) => false,
        Err(error) => {
            fail(rt, b"standard output", error);
            true
        }
    }
}

// Writes a line to standard error: what failed, a colon and why.
pub fn fail(rt: &impl Eprint, what: &[u8], error: io::Error) {
    for chunk in what.utf8_chunks() {
        let _ = rt.eprint(chunk.valid());
        if !chunk.invalid().is_empty() {
            let _ = rt.eprint('\u{fffd}');
        }
    }
    let _ = rt.eprintln(format_args!(": {error}"));
}
