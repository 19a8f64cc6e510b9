// Words and the bytes in which they cross to a host or come from a file: eight each, little-endian.
#![tactic(auto)]

ghost use Rattle.std.specs.Prelude.{◌≡◌, ◌+◌, ◌*◌, ◌≤◌, ◌<◌, length};
ghost use Rattle.base.specs.Le.{le_at};
ghost use Rattle.words.specs.Words.{words_in, bytes_of};

// The number of the last bytes, fewer than eight, from `at` on.
fn last_word(s: &[u8], at: usize) -> u64
    requires { (at ≤ length s.now) × (length s.now < at + 8) }
    ensures { result ≡ le_at 8 s.now at }
{
    let mut p = s.len();
    let mut x: u64 = 0;
    while at < p {
        p -= 1;
        x = (s[p] as u64) + 256 * x;
    }
    x
}

// The number of the eight bytes from `at` on; bytes past the end count as zero.
pub fn word_at(s: &[u8], at: usize) -> u64
    ensures { result ≡ le_at 8 s.now at }
{
    if s.len() <= at {
        return 0;
    }
    if s.len() - at < 8 {
        return last_word(s, at);
    }
    base::read_u64(s, at)
}

// Fills the words from the bytes; bytes that are missing count as zero.
pub fn words_of(bytes: &[u8], words: &mut [u64])
    ensures { words.new ≡ words_in (length words.old) bytes.now }
{
    for i in 0..words.len() {
        words[i] = word_at(bytes, 8 * i);
    }
}

// Fills the bytes from the words.
pub fn bytes_of(words: &[u64], bytes: &mut [u8])
    requires { length bytes.old ≡ 8 * length words.now }
    ensures { bytes.new ≡ bytes_of words.now }
{
    for i in 0..words.len() {
        base::write_u64(bytes, 8 * i, words[i]);
    }
}
