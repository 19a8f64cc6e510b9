// What one record of our own takes: how many statements are written, and its bytes. Follows types.rs.
#![tactic(auto)]

ghost use Rattle.std.specs.Prelude.{◌≡◌, true, ℕ};
ghost use Rattle.draft_spec.specs.Draft.{draft_in};
ghost use Rattle.draft_joined.specs.Step.{joined_from};
ghost use Rattle.draft_size.specs.Asked.{requested};
ghost use Rattle.draft_size.specs.Step.{measured_on, low, sized_up};

// The statements as they are written: their number and their bytes. Nothing where what is given has another form.
fn measure(s: &[u8]) -> Option<(usize, usize)>
    ensures value { result ≡ measured_on 0 0 (joined_from s.now 0) }
    ensures result_value { low result ≡ true }
{
    let mut at: usize = 0;
    let mut count: usize = 0;
    let mut bytes: usize = 0;
    while at < s.len() {
        let (statement, next) = draft_joined::next_joined(s, at)?;
        let size = draft_statements::statement_size(statement)?;
        if count == record_reader::MAX_STATEMENTS {
            return None;
        }
        count = count + 1;
        bytes = bytes + size;
        at = next;
    }
    Some((count, bytes))
}

// The record: the number of its statements and its bytes; or 51 applies.
pub fn measure_record(
    digest: &[u8],
    mark: u64,
    includes: &[u8],
    statements: &[u8],
) -> Option<(usize, usize)>
    ensures { (author round : ℕ) → result ≡ sized_up (draft_in (requested author round digest.now mark includes.now statements.now)) }
{
    if digest.len() != 32 {
        return None;
    }
    if 1 < mark {
        return None;
    }
    if includes.len() % types::REFERENCE_BYTES != 0 {
        return None;
    }
    if record_reader::MAX_INCLUDES < includes.len() / types::REFERENCE_BYTES {
        return None;
    }
    let (count, bytes) = measure(statements)?;
    Some((count, record_edition::HEAD_BYTES + includes.len() + bytes))
}
