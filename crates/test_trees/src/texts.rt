// One line of texts.txt: n, a text in hexadecimal and its answer, with tabs between them: `ok`; or in hexadecimal the text that is written again,
// where it is another; or 12 and the byte.
ghost use Rattle.std.specs.Prelude.{◌≤◌};

use spec_calls::Refusal;
use spec_orders::Layout;

// 1 where the text is accepted, as in the file, and written again as there; 2 where it is refused at the file's byte; 3 where the answer is
// another.
pub fn outcome(n: usize, hex: &[u8], rest: &[u8]) -> usize
    ensures { result ≤ 3 }
{
    let c = test_fields::find(rest, 0, b'\t');
    run(n, hex, &rest[0..c])
}

// The byte of an answer `12 byte`; the largest usize where it is another.
fn byte(answer: &[u8]) -> usize {
    if answer.len() < 4 {
        return usize::MAX;
    }
    test_fields::number(&answer[3..])
}

// Reads the text, and compares with what the file has.
fn run(n: usize, hex: &[u8], answer: &[u8]) -> usize
    ensures { result ≤ 3 }
{
    let mut bytes = [0u8; 4096];
    let k = test_fields::hex_bytes(hex, &mut bytes);
    let mut nodes = [0u16; 65792];
    let mut book = [0u64; 384];
    let got = call_text::read(Layout::Ring, n, &mut nodes, 256, &mut book, &bytes[0..k]);
    compared(n, got, &nodes, &bytes[0..k], answer)
}

// 1, 2 or 3, of what reading the text answered and the node table after it.
fn compared(
    n: usize,
    got: Result<usize, Refusal>,
    nodes: &[u16],
    text: &[u8],
    answer: &[u8],
) -> usize
    ensures { result ≤ 3 }
{
    match got {
        Ok(_) if is_again(n, nodes, text, answer) => 1,
        Err(why) if why.number() == 12 && why.place() == byte(answer) => 2,
        _ => 3,
    }
}

// Whether the table holds the tree of the answer's text: of the text that was read where it is `ok`. The answer `12 byte` is no tree's text.
fn is_again(n: usize, nodes: &[u16], text: &[u8], answer: &[u8]) -> bool {
    if answer.len() == 2 {
        return test_tables::is_text(Layout::Ring, n, nodes, text);
    }
    let mut bytes = [0u8; 4096];
    let k = test_fields::hex_bytes(answer, &mut bytes);
    test_tables::is_text(Layout::Ring, n, nodes, &bytes[0..k])
}
