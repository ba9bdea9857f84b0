// A line of the aim of a book's group: `A n rack rec words days TREE BOOK DAYS k = ANSWER`, where days and DAYS are 0.
ghost use Rattle.std.specs.Prelude.{◌≤◌};

use crate::{answers, fields, rings};
use test_fields::layout;

// 1 where the call is done as in the file, 2 where it is refused as in the file, 3 where the answer is another.
pub fn outcome(line: &[u8]) -> usize
    ensures { result ≤ 3 }
{
    let mut nodes = [0u16; 66049];
    let mut book = [0u64; 388];
    let lent = rings::ring(line, &mut nodes, &mut book);
    let group = fields::number(line, lent.next);
    let a = lent.numbers.min(66049);
    let b = lent.size.min(388);
    let got = call_order::aim(
        layout(lent.rack),
        lent.n,
        &nodes[0..a],
        lent.have,
        &book[0..b],
        lent.count,
        group.value,
    );
    answers::outcome(line, group.next, got)
}
