// The names in the file `stakes` (document 02, "Five").
#![tactic(auto)]

ghost use Rattle.std.specs.Prelude.{◌≡◌, not, map, ◌+◌, ◌<◌, ◌≤◌, length};
ghost use Rattle.base.specs.Lists.{all_of, same};
ghost use Rattle.stakes_chain.specs.Layout.{place};
ghost use Rattle.stakes_chain.specs.Chain.{Inside};
ghost use Rattle.stakes_names.specs.Names.{name_at, good_name, good_names};
ghost use Rattle.stakes_names.specs.Claims.{Claims};

// The name in the record of an index, as the part of the file that holds it.
fn name_at(file: &[u8], i: u16) -> &[u8]
    requires { (0 < i) × (place i + 26 ≤ length file.now) }
    ensures { result.now ≡ name_at file.now i }
{
    let from = stakes_chain::place(i) + 2;
    let to = from + 16;
    &file[from..to]
}

// Whether a name is not empty and has zeros only after its first zero.
fn good_name(name: &[u8]) -> bool
    ensures { result ≡ good_name name.now }
{
    if name.len() == 0 {
        return false;
    }
    if name[0] == 0 {
        return false;
    }
    for i in 1..name.len() {
        if name[i - 1] == 0 && name[i] != 0 {
            return false;
        }
    }
    true
}

// Whether the name is none of those in the records of the indexes.
fn differs(file: &[u8], name: &[u8], indexes: &[u16]) -> bool
    requires { Inside file.now indexes.now }
    ensures { result ≡ all_of (λ n. not (same name.now n)) (map (name_at file.now) indexes.now) }
{
    for j in 0..indexes.len() {
        if check::same(name, name_at(file, indexes[j])) {
            return false;
        }
    }
    true
}

// Whether the names in the records of the indexes are good, and none occurs a second time.
pub fn good_names(file: &[u8], indexes: &[u16]) -> bool
    requires { Inside file.now indexes.now }
    ensures { result ≡ good_names (map (name_at file.now) indexes.now) }
{
    let mut k = 0;
    while k < indexes.len() {
        let name = name_at(file, indexes[k]);
        if !good_name(name) {
            return false;
        }
        k += 1;
        if !differs(file, name, &indexes[k..]) {
            return false;
        }
    }
    true
}

// Good names are those that 02 wants.
pub fn claims()
    ensures { Claims }
{}
