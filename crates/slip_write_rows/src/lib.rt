// Rows of distances: an include taken into the row of a block, of equally near ones the first.
#![tactic(auto)]

ghost use Rattle.std.specs.Prelude.{◌≡◌, ℕ, ◌+◌, ◌*◌, ◌<◌, length, get_or};
ghost use Rattle.slip_write_rows.specs.Rows.{is_nearer, Folded};

// Whether an include brings a vote nearer. A word is 0 where there is no vote, else the distance and one.
fn is_nearer(found: u16, held: u16) -> bool
    ensures { result ≡ is_nearer found held }
{
    if found == 0 {
        return false;
    }
    if held == 0 {
        return true;
    }
    found < held - 1
}

// Takes the include of index j, which stands at place i, into the row of the block at place k: of equally near ones the first stays.
pub fn fold_include(near: &mut [u16], steps: &mut [u8], k: usize, i: usize, j: u8)
    requires { ((length near.old ≡ 131072) × (length steps.old ≡ 131072)) × (((i < k) × (k < 1024)) × ((a : ℕ) → a < 128 → get_or near.old (128 * i + a) 0 < 65535)) }
    ensures { Folded near.old steps.old k i j near.new steps.new 128 }
{
    for a in 0..committee::MAX_MEMBERS {
        let found = near[committee::MAX_MEMBERS * i + a];
        let at = committee::MAX_MEMBERS * k + a;
        let held = near[at];
        if !is_nearer(found, held) {
            continue;
        }
        near[at] = found + 1;
        steps[at] = j;
    }
}
