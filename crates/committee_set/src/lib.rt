// The vote set and the stake of its members. Follows `AuthoritySet` of types.rs.
#![tactic(auto)]

ghost use Rattle.std.specs.Prelude.{◌≡◌, false, ◌^◌, ◌<◌};
ghost use Rattle.committee.specs.Committee.{broken};
ghost use Rattle.committee_set.specs.AuthoritySet.{nobody, member, inserted, united, without, number_of_voters, stake_of};
ghost use Rattle.committee_set.specs.Claims.{Claims};

use committee::{AuthorityIndex, Stake};

// A vote set: 128 bits in two words.
#[derive(Clone, Copy)]
pub struct AuthoritySet {
    pub low: u64,
    pub high: u64,
}

// The word with bit i alone.
fn mask(i: usize) -> u64
    requires { i < 64 }
    ensures { result ≡ 2 ^ i }
{
    1u64 << i
}

// Who is in either set.
pub fn union(a: AuthoritySet, b: AuthoritySet) -> AuthoritySet
    ensures { result ≡ united a b }
{
    AuthoritySet {
        low: a.low | b.low,
        high: a.high | b.high,
    }
}

// Who is in the first set and not in the second.
pub fn less(a: AuthoritySet, b: AuthoritySet) -> AuthoritySet
    ensures { result ≡ without a b }
{
    AuthoritySet {
        low: a.low ^ (a.low & b.low),
        high: a.high ^ (a.high & b.high),
    }
}

impl AuthoritySet {
    // The empty set.
    pub fn new() -> AuthoritySet
        ensures { result ≡ nobody }
    {
        AuthoritySet { low: 0, high: 0 }
    }

    // The set with the authority in it.
    pub fn insert(self, v: AuthorityIndex) -> AuthoritySet
        requires { v.0 < 128 }
        ensures { result ≡ inserted self v.0 }
    {
        let k = v.0;
        if k < 64 {
            AuthoritySet {
                low: self.low | mask(k as usize),
                high: self.high,
            }
        } else {
            AuthoritySet {
                low: self.low,
                high: self.high | mask((k - 64) as usize),
            }
        }
    }

    // Whether the authority is in the set.
    pub fn contains(self, v: AuthorityIndex) -> bool
        ensures { result ≡ member self v.0 }
    {
        let k = v.0;
        if k < 64 {
            let m = mask(k as usize);
            return self.low & m == m;
        }
        if k < 128 {
            let m = mask((k - 64) as usize);
            return self.high & m == m;
        }
        false
    }

    // How many authorities are in the set: ones counted in its two words.
    pub fn count(self) -> u64
        ensures { result ≡ number_of_voters self }
    {
        let low = u64::count_ones(self.low) as u64;
        let high = u64::count_ones(self.high) as u64;
        low + high
    }
}

// The stake of the authorities in a set, each once.
pub fn stake_of(stakes: &[u64], votes: AuthoritySet) -> Stake
    requires { broken stakes.now ≡ false }
    ensures { result.0 ≡ stake_of stakes.now votes }
{
    let mut stake: u64 = 0;
    for i in 0..stakes.len() {
        if votes.contains(AuthorityIndex(i as u64)) {
            let s = stakes[i];
            stake += s;
        }
    }
    Stake(stake)
}

// The vote set at small values.
pub fn claims()
    ensures { Claims }
{}
