// A line of a call that fills both tables: `O n rack rec words days = ANSWER`, which opens a ring or a rack, or `R n rack rec words days BYTES =
// ANSWER`, which reads a tree text, where days is 0.
ghost use Rattle.std.specs.Prelude.{◌≤◌};

use crate::answers::Compared;
use crate::rings::Lent;
use crate::{answers, fields, rings};
use spec_calls::Refusal;
use test_fields::layout;

// 1 where opening is done as in the file, 2 where it is refused as in the file, 3 where the answer or a table is another.
pub fn opened(line: &[u8]) -> usize
    ensures { result ≤ 3 }
{
    let lent = rings::sizes(line);
    let mut nodes = [7u16; 66049];
    let mut book = [7u64; 388];
    let got = open_call(lent, &mut nodes, &mut book);
    after(line, lent.next, got, lent, &nodes, &book)
}

// Makes the call on as many records and words as are lent.
fn open_call(lent: Lent, nodes: &mut [u16], book: &mut [u64]) -> Result<usize, Refusal> {
    let a = lent.numbers.min(nodes.len());
    let b = lent.size.min(book.len());
    call_update::open(
        layout(lent.rack),
        lent.n,
        &mut nodes[0..a],
        lent.have,
        &mut book[0..b],
    )
}

// 1 where the text is read as in the file, 2 where it is refused as in the file, 3 where the answer or a table is another.
pub fn read(line: &[u8]) -> usize
    ensures { result ≤ 3 }
{
    let lent = rings::sizes(line);
    let mut text = [0u8; 2304];
    let given = fields::bytes(line, lent.next, &mut text);
    let k = given.value;
    let mut nodes = [7u16; 66049];
    let mut book = [7u64; 388];
    let got = read_call(lent, &mut nodes, &mut book, &text[0..k]);
    after(line, given.next, got, lent, &nodes, &book)
}

// Makes the call on as many records and words as are lent.
fn read_call(
    lent: Lent,
    nodes: &mut [u16],
    book: &mut [u64],
    text: &[u8],
) -> Result<usize, Refusal> {
    let a = lent.numbers.min(nodes.len());
    let b = lent.size.min(book.len());
    call_text::read(
        layout(lent.rack),
        lent.n,
        &mut nodes[0..a],
        lent.have,
        &mut book[0..b],
        text,
    )
}

// 1, 2 or 3, of the answer at a place of the line and the tables after the call, which held 7 throughout.
fn after(
    line: &[u8],
    at: usize,
    got: Result<usize, Refusal>,
    lent: Lent,
    nodes: &[u16],
    book: &[u64],
) -> usize
    ensures { result ≤ 3 }
{
    match answers::compare(line, at, got) {
        Compared::Done(next) if is_filled(line, next, lent, nodes, book) => 1,
        Compared::Refused if is_kept(nodes, book) => 2,
        _ => 3,
    }
}

// Whether the node table holds the tree whose text stands at a place of the line, the book is empty, and both still hold 7 past their sizes.
fn is_filled(line: &[u8], at: usize, lent: Lent, nodes: &[u16], book: &[u64]) -> bool {
    is_tree(line, at, lent, nodes) && is_empty(book)
}

// Whether the node table holds the tree whose text stands at a place of the line, and still 7 past its 256 records.
pub fn is_tree(line: &[u8], at: usize, lent: Lent, nodes: &[u16]) -> bool {
    let mut text = [0u8; 2304];
    let want = fields::bytes(line, at, &mut text);
    let k = want.value;
    if !test_tables::is_text(layout(lent.rack), lent.n, nodes, &text[0..k]) {
        return false;
    }
    let past = nodes.len().min(65792);
    test_tables::all_are(&nodes[past..], 7)
}

// Whether the book has 384 words of 0, and 7 past them.
fn is_empty(book: &[u64]) -> bool {
    let end = book.len().min(384);
    let none = [0u64; 384];
    let past = [7u64; 4];
    book[..end] == none[..] && book[end..] == past[..]
}

// Whether both tables hold 7 throughout.
fn is_kept(nodes: &[u16], book: &[u64]) -> bool {
    let old = [7u64; 388];
    test_tables::all_are(nodes, 7) && book == &old[..]
}
