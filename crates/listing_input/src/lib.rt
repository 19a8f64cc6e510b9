// What `listing` reads, on slices: the committee, and the lengths of records.
#![tactic(auto)]

ghost use Rattle.std.specs.Prelude.{◌≡◌, ◌≤◌, length, get_or, take};
ghost use Rattle.base.specs.Checks.{checked};
ghost use Rattle.committee.specs.Committee.{committee_checks};
ghost use Rattle.words.specs.Words.{words_in};
ghost use Rattle.stakes_file.specs.Answers.{stakes_in, members_at_most};
ghost use Rattle.listing_input.specs.Input.{stake_bytes, file_stakes, listed_stakes, size_of, whole_size};
ghost use Rattle.listing_input.specs.Read.{read_at_most, as_file};

use base::Refusal;

// What the next bytes say of the record that follows: there is none, the framing is broken, or how long it is.
#[derive(Clone, Copy)]
pub enum Size {
    End,
    Broken,
    Of(usize),
}

const MAX_RECORD: u32 = 8192;

// The size of the next record, from the up to four bytes that were read.
pub fn size_of(head: &[u8]) -> Size
    ensures { result ≡ size_of head.now }
{
    if head.len() == 0 {
        return Size::End;
    }
    if head.len() < 4 {
        return Size::Broken;
    }
    let size = base::read_u32(head, 0);
    if MAX_RECORD < size {
        return Size::Broken;
    }
    Size::Of(size as usize)
}

// The size of a record of n bytes of which so many were there: one past the end is broken.
pub fn whole_size(n: usize, got: usize) -> Size
    ensures { result ≡ whole_size n got }
{
    if got < n {
        return Size::Broken;
    }
    Size::Of(n)
}

// The member count, from the byte that was read, if there was one.
pub fn member_count(head: &[u8]) -> u8
    ensures { result ≡ get_or head.now 0 0 }
{
    if head.len() == 0 {
        return 0;
    }
    head[0]
}

// How many bytes of stakes follow that count.
pub fn stake_bytes(count: u8) -> usize
    ensures { (result ≡ stake_bytes count) × (result ≤ 2032) }
{
    if count == 255 {
        return 0;
    }
    8 * (count as usize)
}

// What reading the file of stakes gave: there is none, so many bytes, or it could not be read.
#[derive(Clone, Copy)]
pub enum FileRead {
    Absent,
    Of(usize),
    Failed,
}

// Puts the stakes of the file in front; one that is absent is empty, one that cannot be read is broken.
fn table_of(file: FileRead, bytes: &[u8], stakes: &mut [u64]) -> Result<usize, Refusal>
    requires { (254 ≤ length stakes.old) × read_at_most (length bytes.now) file }
    ensures { members_at_most 254 result × (stakes_in result stakes.new ≡ file_stakes (as_file file bytes.now)) }
{
    match file {
        FileRead::Absent => stakes_file::load(b"", stakes),
        FileRead::Of(n) => stakes_file::load(&bytes[..n], stakes),
        FileRead::Failed => Err(Refusal::StakesFileBroken),
    }
}

// Checks the first n stakes: 1 to 4.
fn checked_members(stakes: &[u64], n: usize) -> Result<usize, Refusal>
    requires { (n ≤ length stakes.now) × (n ≤ 254) }
    ensures { members_at_most 254 result × (stakes_in result stakes.now ≡ checked (committee_checks (take n stakes.now)) (take n stakes.now)) }
{
    committee::new_committee(&stakes[..n])?;
    Ok(n)
}

// Puts the stakes that follow the count in front; missing bytes are zero.
fn members_of(count: u8, read: &[u8], stakes: &mut [u64]) -> Result<usize, Refusal>
    requires { (254 ≤ length stakes.old) × (count ≤ 254) }
    ensures { members_at_most 254 result × (stakes_in result stakes.new ≡ checked (committee_checks (words_in count read.now)) (words_in count read.now)) }
{
    let n = count as usize;
    words::words_of(read, &mut stakes[..n]);
    checked_members(stakes, n)
}

// Puts the stakes of the committee in front; `read` is what was read after the count, and `bytes` holds the file of stakes, which only the
// count 255 asks for.
pub fn committee_of(
    count: u8,
    read: &[u8],
    file: FileRead,
    bytes: &[u8],
    stakes: &mut [u64],
) -> Result<usize, Refusal>
    requires { (254 ≤ length stakes.old) × read_at_most (length bytes.now) file }
    ensures { members_at_most 254 result × (stakes_in result stakes.new ≡ listed_stakes count read.now (as_file file bytes.now)) }
{
    if count == 255 {
        return table_of(file, bytes, stakes);
    }
    members_of(count, read, stakes)
}
