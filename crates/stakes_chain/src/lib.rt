// The chain of records in the file `stakes` (document 02, "Five").
#![tactic(auto)]

ghost use Rattle.std.specs.Prelude.{◌≡◌, ◌<◌, length};
ghost use Rattle.stakes_chain.specs.Layout.{well_sized, place};
ghost use Rattle.stakes_chain.specs.Chain.{chain_of};
ghost use Rattle.stakes_chain.specs.Answers.{as_chain, count_fits};
ghost use Rattle.stakes_chain.specs.Claims.{Claims};

const MOST_BYTES: usize = 65536;

// Whether the bytes are an index and whole records, and not too many.
fn well_sized(file: &[u8]) -> bool
    ensures { result ≡ well_sized file.now }
{
    if MOST_BYTES < file.len() {
        return false;
    }
    if file.len() < 2 {
        return false;
    }
    (file.len() - 2) % 26 == 0
}

// Where the record of an index stands.
pub fn place(i: u16) -> usize
    requires { 0 < i }
    ensures { result ≡ place i }
{
    2 + 26 * ((i as usize) - 1)
}

// Walks along the chain, at most one step for each record, and puts its indexes in front: how many they are, or none where the chain is broken.
pub fn chain(file: &[u8], indexes: &mut [u16]) -> Option<usize>
    requires { length indexes.old ≡ 2520 }
    ensures { count_fits result × (as_chain result indexes.new ≡ chain_of file.now) }
{
    if !well_sized(file) {
        return None;
    }
    let count = (file.len() - 2) / 26;
    let mut n = 0;
    let mut i = base::read_u16(file, 0);
    while i != 0 {
        if n == count {
            return None; // so many steps without an end: some index comes a second time
        }
        if count < (i as usize) {
            return None; // past the last record
        }
        indexes[n] = i;
        n += 1;
        i = base::read_u16(file, place(i));
    }
    Some(n)
}

// The chain that is walked is the one that 02 wants; there is one at most, and records off it do not change it.
pub fn claims()
    ensures { Claims }
{}
