// A line of a call that joins a group, `J n rack rec words days TREE BOOK DAYS LIST = ANSWER`, or tries one, `T` and the same, where days and DAYS
// are 0.
ghost use Rattle.std.specs.Prelude.{◌≤◌};

use crate::answers::Compared;
use crate::rings::Lent;
use crate::{answers, fields, rings};
use spec_calls::Refusal;
use test_fields::layout;

// 1 where joining is done as in the file, 2 where it is refused as in the file, 3 where the answer or a table is another.
pub fn joined(line: &[u8]) -> usize
    ensures { result ≤ 3 }
{
    let mut nodes = [0u16; 66049];
    let mut book = [0u64; 388];
    let lent = rings::ring(line, &mut nodes, &mut book);
    let mut list = [0u16; 512];
    let group = fields::list(line, lent.next, &mut list);
    let k = group.value;
    let got = join(lent, &mut nodes, &mut book, &list[0..k]);
    after(line, group.next, got, &nodes, &book)
}

// Joins the group of the list to the lent part of the tables.
fn join(lent: Lent, nodes: &mut [u16], book: &mut [u64], list: &[u16]) -> Result<usize, Refusal> {
    let a = lent.numbers.min(nodes.len());
    let b = lent.size.min(book.len());
    call_update::join(
        layout(lent.rack),
        lent.n,
        &mut nodes[0..a],
        lent.have,
        &mut book[0..b],
        lent.count,
        list,
    )
}

// 1, 2 or 3, of the answer at a place of the line and the tables after the call.
fn after(line: &[u8], at: usize, got: Result<usize, Refusal>, nodes: &[u16], book: &[u64]) -> usize
    ensures { result ≤ 3 }
{
    match answers::compare(line, at, got) {
        Compared::Done(next) if is_joined(line, next, nodes, book) => 1,
        Compared::Refused if is_kept(line, nodes, book) => 2,
        _ => 3,
    }
}

// Whether the node table holds the tree whose text stands at a place of the line, the group after the book's last has the four words that follow
// it, and all else is as the line lent it.
fn is_joined(line: &[u8], at: usize, nodes: &[u16], book: &[u64]) -> bool {
    let mut text = [0u8; 2304];
    let want = fields::bytes(line, at, &mut text);
    let k = want.value;
    let mut old = [0u16; 66049];
    let mut groups = [0u64; 388];
    let lent = rings::ring(line, &mut old, &mut groups);
    if !test_tables::is_text(layout(lent.rack), lent.n, nodes, &text[0..k]) {
        return false;
    }
    let past = nodes.len().min(65792);
    if nodes[past..] != old[65792..] {
        return false;
    }
    add_group(line, want.next, lent.count, &mut groups);
    book == &groups[..]
}

// Writes the four words at a place of the line behind the first groups of a book, as many as its count.
fn add_group(line: &[u8], at: usize, count: usize, book: &mut [u64]) {
    let from = (4 * count.min(96)).min(book.len());
    let _ = fields::words(line, at, 4, &mut book[from..]);
}

// Whether the tables are as the line lent them.
fn is_kept(line: &[u8], nodes: &[u16], book: &[u64]) -> bool {
    let mut old = [0u16; 66049];
    let mut groups = [0u64; 388];
    let _ = rings::ring(line, &mut old, &mut groups);
    nodes == &old[..] && book == &groups[..]
}

// 1 where trying is done as in the file, 2 where it is refused as in the file, 3 where the answer is another.
pub fn tried(line: &[u8]) -> usize
    ensures { result ≤ 3 }
{
    let mut nodes = [0u16; 66049];
    let mut book = [0u64; 388];
    let lent = rings::ring(line, &mut nodes, &mut book);
    let mut list = [0u16; 512];
    let group = fields::list(line, lent.next, &mut list);
    let a = lent.numbers.min(66049);
    let b = lent.size.min(388);
    let k = group.value;
    let got = call_update::trial(
        layout(lent.rack),
        lent.n,
        &nodes[0..a],
        lent.have,
        &book[0..b],
        lent.count,
        &list[0..k],
    );
    answers::outcome(line, group.next, got)
}
