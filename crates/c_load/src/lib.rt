// The call that writes a test load, for C and Rust. Each returns 0, or the number of its refusal, and writes one number through `value`: its own
// answer; or the place or byte of the refusal, 0 where the table names none. Written by tools/outer.py.
#![tactic(auto)]

ghost use Rattle.spec_calls.specs.Refusals.{reply};
ghost use Rattle.spec_calls.specs.Promises.{TestLoadPromise};

// Writes the ring file of the test load of n bins with this seed and so many groups, then zeros, to the first 65,536 bytes. All its groups can hang
// together. The value is the length of the file.
#[unsafe(no_mangle)]
pub extern "C" fn tokuwhape_test_load(
    n: usize,
    seed: u32,
    groups: usize,
    bytes: &mut [u8],
    value: &mut usize,
) -> u8
    ensures { TestLoadPromise n seed groups bytes.old bytes.new (reply result value.new) }
{
    let answer = call_load::test_load(n, seed, groups, bytes);
    spec_calls::code(answer, value)
}
