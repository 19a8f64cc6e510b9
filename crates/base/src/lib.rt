// Little-endian numbers in byte slices (bincode writes them so in the Rust), and bytes copied.
#![tactic(auto)]

ghost use Rattle.std.specs.Prelude.{◌≡◌, ◌+◌, ◌≤◌, length};
ghost use Rattle.std.proofs.lemmas.List.Edits.{sets};
ghost use Rattle.base.specs.Le.{le_at, le_bytes};

mod refusal;

pub use refusal::Refusal;

// The number of the two bytes from `at` on.
pub fn read_u16(s: &[u8], at: usize) -> u16
    requires { at + 2 ≤ length s.now }
    ensures { result ≡ le_at 2 s.now at }
{
    (s[at] as u16) + 256 * (s[at + 1] as u16)
}

// The number of the four bytes from `at` on.
pub fn read_u32(s: &[u8], at: usize) -> u32
    requires { at + 4 ≤ length s.now }
    ensures { result ≡ le_at 4 s.now at }
{
    (read_u16(s, at) as u32) + 65536 * (read_u16(s, at + 2) as u32)
}

// The number of the eight bytes from `at` on.
pub fn read_u64(s: &[u8], at: usize) -> u64
    requires { at + 8 ≤ length s.now }
    ensures { result ≡ le_at 8 s.now at }
{
    (read_u32(s, at) as u64) + 4294967296 * (read_u32(s, at + 4) as u64)
}

// Puts the two bytes of `v` at `at`, and changes no other.
pub fn write_u16(s: &mut [u8], at: usize, v: u16)
    requires { at + 2 ≤ length s.old }
    ensures { s.new ≡ sets s.old at (le_bytes 2 v) }
{
    s[at] = (v % 256) as u8;
    s[at + 1] = (v / 256 % 256) as u8;
}

// Puts the four bytes of `v` at `at`, and changes no other.
pub fn write_u32(s: &mut [u8], at: usize, v: u32)
    requires { at + 4 ≤ length s.old }
    ensures { s.new ≡ sets s.old at (le_bytes 4 v) }
{
    write_u16(s, at, (v % 65536) as u16);
    write_u16(s, at + 2, (v / 65536) as u16);
}

// Puts the eight bytes of `v` at `at`, and changes no other.
pub fn write_u64(s: &mut [u8], at: usize, v: u64)
    requires { at + 8 ≤ length s.old }
    ensures { s.new ≡ sets s.old at (le_bytes 8 v) }
{
    write_u32(s, at, (v % 4294967296) as u32);
    write_u32(s, at + 4, (v / 4294967296) as u32);
}

// Copies bytes to a position, and changes no other.
pub fn copy_to(s: &mut [u8], at: usize, from: &[u8])
    requires { at + length from.now ≤ length s.old }
    ensures { s.new ≡ sets s.old at from.now }
{
    for i in 0..from.len() {
        s[at + i] = from[i];
    }
}
