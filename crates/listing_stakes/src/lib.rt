// The committee of a listing: its stakes from the input, or from the file of stakes.
#![tactic(auto)]

ghost use Rattle.std.specs.Prelude.{◌≡◌, length, IfOk};
ghost use Rattle.stakes_file.specs.Answers.{members_at_most};
ghost use Rattle.listing_input.specs.Read.{read_at_most};

use base::Refusal;
use listing_input::FileRead;
use std::io;
use std::io::{ErrorKind, Read};
use std::rt::Files;

// Reads an open file to its end, or as far as there is room.
fn read_open<F: Read>(file: &mut F, bytes: &mut [u8]) -> FileRead
    ensures { read_at_most (length bytes.old) result }
{
    match listing_io::fill(file, bytes) {
        Ok(n) => FileRead::Of(n),
        Err(_) => FileRead::Failed,
    }
}

// The file of that name: absent only where opening it says that there is none.
fn read_file<R: Files>(rt: &R, name: &[u8], bytes: &mut [u8]) -> FileRead
    ensures { read_at_most (length bytes.old) result }
{
    match listing_io::open(rt, name) {
        Ok(mut file) => read_open(&mut file, bytes),
        Err(error) => {
            if error.kind() == ErrorKind::NotFound {
                return FileRead::Absent;
            }
            FileRead::Failed
        }
    }
}

// The file of stakes where the count asks for it.
fn read_table<R: Files>(rt: &R, count: u8, name: &[u8], bytes: &mut [u8]) -> FileRead
    ensures { read_at_most (length bytes.old) result }
{
    if count == 255 {
        return read_file(rt, name, bytes);
    }
    FileRead::Absent
}

// The committee from the bytes that follow the count, or from the file. One byte more than the file may have is lent, so that a longer one is broken.
fn read_members<R: Files>(
    rt: &R,
    count: u8,
    bytes: &[u8],
    name: &[u8],
    stakes: &mut [u64],
) -> Result<usize, Refusal>
    requires { length stakes.old ≡ 254 }
    ensures { members_at_most 254 result }
{
    let mut file = [0u8; 65537];
    let read = read_table(rt, count, name, &mut file);
    listing_input::committee_of(count, bytes, read, &file, stakes)
}

// The stakes that follow the member count, or those of the file.
fn read_stakes<R: Files, I: Read>(
    rt: &R,
    input: &mut I,
    count: u8,
    name: &[u8],
    stakes: &mut [u64],
) -> io::Result<Result<usize, Refusal>>
    requires { length stakes.old ≡ 254 }
    ensures { IfOk result (members_at_most 254) }
{
    let mut bytes = [0u8; 2032];
    let size = listing_input::stake_bytes(count);
    let got = listing_io::fill_front(input, &mut bytes, size)?;
    Ok(read_members(rt, count, &bytes[..got], name, stakes))
}

// Reads the committee's stakes, and puts them in front: how many members there are, or a refusal; or why reading the input failed.
pub fn read_committee<R: Files, I: Read>(
    rt: &R,
    input: &mut I,
    name: &[u8],
    stakes: &mut [u64],
) -> io::Result<Result<usize, Refusal>>
    requires { length stakes.old ≡ 254 }
    ensures { IfOk result (members_at_most 254) }
{
    let mut head = [0u8; 1];
    let got = listing_io::fill(input, &mut head)?;
    let count = listing_input::member_count(&head[..got]);
    read_stakes(rt, input, count, name, stakes)
}
