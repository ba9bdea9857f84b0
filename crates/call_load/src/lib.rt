// The call that writes the file of a test load.
#![tactic(auto)]

ghost use Rattle.std.specs.Prelude.{◌≡◌};
ghost use Rattle.spec_calls.specs.Refusals.{bad_count, report};
ghost use Rattle.spec_calls.specs.Calls.{test_load_refusal};
ghost use Rattle.spec_calls.specs.Promises.{TestLoadPromise};
ghost use Rattle.table_book.specs.Lists.{refusal_in};

use spec_calls::Refusal;

// Whether a count of groups is refused by 17.
fn bad_count(groups: usize) -> bool
    ensures { result ≡ bad_count groups }
{
    groups == 0 || groups > 96
}

// Checks 1, 16, 17 and 2.
fn check(n: usize, seed: u32, groups: usize, bytes: &[u8]) -> Result<(), Refusal>
    ensures { refusal_in result ≡ test_load_refusal n seed groups bytes.now }
{
    if call_checks::bad_size(n) {
        return Err(Refusal::RingSize);
    }
    if seed == 0 {
        return Err(Refusal::ZeroSeed);
    }
    if bad_count(groups) {
        return Err(Refusal::GroupCount);
    }
    if bytes.len() < 65536 {
        return Err(Refusal::ShortTable);
    }
    Ok(())
}

// Writes the ring file of the test load of n bins with this seed and so many groups, and zeros up to 65,536 bytes. Answers the file's length; or
// refuses (1, 16, 17, 2), and leaves the bytes as they were.
pub fn test_load(n: usize, seed: u32, groups: usize, bytes: &mut [u8]) -> Result<usize, Refusal>
    ensures { TestLoadPromise n seed groups bytes.old bytes.new (report result) }
{
    check(n, seed, groups, bytes)?;
    let k = load_file::write_load(n, seed, groups, bytes);
    bytes[k..65536].fill(0);
    Ok(k)
}
