// What the host's call that loads a network's own stakes is made of, over byte slices.
#![tactic(auto)]

ghost use Rattle.std.specs.Prelude.{◌≡◌, ◌≤◌, length};
ghost use Rattle.base.specs.Checks.{answered};
ghost use Rattle.host_calls.specs.Calls.{encoded};
ghost use Rattle.host_stakes.specs.LoadStakes.{loaded_bytes, load_stakes_call};

use base::Refusal;

// Puts the stakes of the members in front, 8 bytes each, and answers how many there are.
fn put_stakes(members: &[u64], stakes: &mut [u8]) -> u64
    requires { length members.now ≤ 128 }
    ensures { (result ≡ encoded (loaded_bytes (answered members.now) stakes.old).answer) × (stakes.new ≡ (loaded_bytes (answered members.now) stakes.old).stakes) }
{
    if stakes.len() != 1024 {
        return host_calls::refused(Refusal::AnswerSlice);
    }
    let end = 8 * members.len();
    words::bytes_of(members, &mut stakes[..end]);
    members.len() as u64
}

pub fn load_stakes(file: &[u8], stakes: &mut [u8]) -> u64
    ensures { (result ≡ encoded (load_stakes_call file.now stakes.old).answer) × (stakes.new ≡ (load_stakes_call file.now stakes.old).stakes) }
{
    let mut held = [0u64; committee::MAX_MEMBERS];
    match stakes_file::load(file, &mut held) {
        Ok(n) => put_stakes(&held[..n], stakes),
        Err(refusal) => host_calls::refused(refusal),
    }
}
