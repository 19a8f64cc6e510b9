// Words with their bytes the other way round: of a digest's words the index has the first byte lowest, `BlockDigest` highest.
#![tactic(auto)]

ghost use Rattle.std.specs.Prelude.{◌≡◌};
ghost use Rattle.base.specs.Le.{le_bytes};
ghost use Rattle.types.specs.Values.{be_bytes};

// The bytes of a number the other way round.
fn turned_u16(v: u16) -> u16
    ensures { be_bytes 2 result ≡ le_bytes 2 v }
{
    v % 256 * 256 + v / 256
}

fn turned_u32(v: u32) -> u32
    ensures { be_bytes 4 result ≡ le_bytes 4 v }
{
    (turned_u16((v % 65536) as u16) as u32) * 65536 + (turned_u16((v / 65536) as u16) as u32)
}

pub fn turned(v: u64) -> u64
    ensures { be_bytes 8 result ≡ le_bytes 8 v }
{
    (turned_u32((v % 4294967296) as u32) as u64) * 4294967296
        + (turned_u32((v / 4294967296) as u32) as u64)
}
