// The edition of a record, and where its includes begin.
#![tactic(auto)]

ghost use Rattle.std.specs.Prelude.{◌≡◌, ◌≤◌, length};
ghost use Rattle.record_spec.specs.Record.{body_start};
ghost use Rattle.record_edition.specs.Step.{edition_right};

// The bytes before the time of edition 2, or before the includes.
pub const HEAD_BYTES: usize = 56;

// The three bytes of the edition are 0 0 0, or 2 0 0 and a time of 64 bits follows.
pub fn edition_formed(rec: &[u8]) -> bool
    requires { 56 ≤ length rec.now }
    ensures { result ≡ edition_right rec.now }
{
    if rec[54] != 0 {
        return false;
    }
    if rec[55] != 0 {
        return false;
    }
    if rec[53] == 0 {
        return true;
    }
    if rec[53] != 2 {
        return false;
    }
    if rec.len() < 72 {
        return false;
    }
    base::read_u64(rec, 64) == 0
}

// Where the record's includes begin.
pub fn body_start(rec: &[u8]) -> usize
    requires { 56 ≤ length rec.now }
    ensures { result ≡ body_start rec.now }
{
    if rec[53] == 2 {
        return 72;
    }
    HEAD_BYTES
}
