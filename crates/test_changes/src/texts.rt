// A line of a tree text that is written: `W n rack rec bytes TREE = ANSWER`.
ghost use Rattle.std.specs.Prelude.{◌≤◌};

use crate::answers::Compared;
use crate::rings::Lent;
use crate::{answers, fields, rings};
use spec_calls::Refusal;
use test_fields::layout;

// 1 where the text is written as in the file, 2 where that is refused as in the file, 3 where the answer or a byte is another.
pub fn outcome(line: &[u8]) -> usize
    ensures { result ≤ 3 }
{
    let mut nodes = [0u16; 66049];
    let lent = rings::tree(line, &mut nodes);
    let a = lent.numbers.min(66049);
    let mut bytes = [7u8; 2052];
    let got = call(lent, &nodes[0..a], &mut bytes);
    after(line, lent.next, got, &bytes)
}

// Makes the call on as many bytes as are lent.
fn call(lent: Lent, nodes: &[u16], bytes: &mut [u8]) -> Result<usize, Refusal> {
    let end = lent.size.min(bytes.len());
    call_text::write(
        layout(lent.rack),
        lent.n,
        nodes,
        lent.have,
        &mut bytes[0..end],
    )
}

// 1, 2 or 3, of the answer at a place of the line and the bytes after the call, which were 7 throughout.
fn after(line: &[u8], at: usize, got: Result<usize, Refusal>, bytes: &[u8]) -> usize
    ensures { result ≤ 3 }
{
    match answers::compare(line, at, got) {
        Compared::Done(next) if is_written(line, next, bytes) => 1,
        Compared::Refused if is_kept(bytes) => 2,
        _ => 3,
    }
}

// Whether the bytes are those at a place of the line, zeros up to 2,048, and still 7 past them.
fn is_written(line: &[u8], at: usize, bytes: &[u8]) -> bool {
    let mut want = [0u8; 2048];
    let _ = fields::bytes(line, at, &mut want);
    let end = bytes.len().min(2048);
    let past = [7u8; 4];
    bytes[..end] == want[..] && bytes[end..] == past[..]
}

// Whether the bytes are 7 throughout.
fn is_kept(bytes: &[u8]) -> bool {
    let old = [7u8; 2052];
    bytes == &old[..]
}
