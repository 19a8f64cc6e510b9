// How a call of the host crosses: its stakes as bytes, its answer as one word.
#![tactic(auto)]

ghost use Rattle.std.specs.Prelude.{◌≡◌, ◌≤◌, eqb, length, take};
ghost use Rattle.base.specs.Lists.{any_of};
ghost use Rattle.base.specs.Checks.{refused};
ghost use Rattle.base.specs.Refusals.{refusal_number};
ghost use Rattle.words.specs.Words.{words_of};
ghost use Rattle.host_calls.specs.Calls.{flag, committee_of, encoded};
ghost use Rattle.host_calls.specs.Claims.{Claims};

use base::Refusal;

// A refusal is its number and this.
pub const REFUSED: u64 = 9223372036854775808;

// The sizes of `listing`, in which a host lends a table, events and positions: in words, and in bytes.
pub const TABLE_WORDS: usize = 6145;

pub const TABLE_BYTES: usize = 49160;

pub const EVENT_WORDS: usize = 8192;

pub const EVENT_BYTES: usize = 65536;

pub const POSITION_BYTES: usize = 8192;

// Whether one of the words is zero.
pub fn has_zero_word(bytes: &[u8]) -> bool
    ensures { result ≡ any_of (λ s. eqb s 0) (words_of bytes.now) }
{
    let n = bytes.len() / 8;
    for i in 0..n {
        if words::word_at(bytes, 8 * i) == 0 {
            return true;
        }
    }
    false
}

// How a refusal crosses.
pub fn refused(refusal: Refusal) -> u64
    ensures { result ≡ encoded (refused (refusal_number refusal)) }
{
    REFUSED + refusal.number()
}

// Puts the stakes of a call in front and answers how many they are.
pub fn stakes_of(bytes: &[u8], stakes: &mut [u64]) -> usize
    requires { length stakes.old ≡ 128 }
    ensures { (result ≤ 128) × (take result stakes.new ≡ committee_of bytes.now) }
{
    if bytes.len() % 8 != 0 {
        return 0;
    }
    let n = bytes.len() / 8;
    if committee::MAX_MEMBERS < n {
        return 0;
    }
    words::words_of(bytes, &mut stakes[..n]);
    n
}

pub fn flag(test: bool) -> u64
    ensures { result ≡ flag test }
{
    if test {
        return 1;
    }
    0
}

// An answer and a refusal are told apart.
pub fn claims()
    ensures { Claims }
{}
