// A line of two trees intersected: `I n rack rec TREE n rack rec TREE rec = ANSWER`.
ghost use Rattle.std.specs.Prelude.{◌≤◌};

use crate::answers::Compared;
use crate::rings::Lent;
use crate::{answers, fields, fills, rings};
use spec_calls::Refusal;
use test_fields::layout;

// 1 where the call is done as in the file, 2 where it is refused as in the file, 3 where the answer or a table is another.
pub fn outcome(line: &[u8]) -> usize
    ensures { result ≤ 3 }
{
    let mut nodes = [0u16; 66049];
    let lent = rings::nodes(line, 2, &mut nodes);
    let end = lent.numbers.min(66049);
    with_first(line, lent, &nodes[0..end])
}

// The same, of the second table and what follows it.
fn with_first(line: &[u8], lent: Lent, nodes: &[u16]) -> usize
    ensures { result ≤ 3 }
{
    let mut other = [0u16; 66049];
    let second = rings::nodes(line, lent.next, &mut other);
    let end = second.numbers.min(66049);
    with_both(line, lent, nodes, second, &other[0..end])
}

// The same, of the third table, which holds 7 throughout, and the answer.
fn with_both(line: &[u8], lent: Lent, nodes: &[u16], second: Lent, other: &[u16]) -> usize
    ensures { result ≤ 3 }
{
    let room = fields::number(line, second.next);
    let mut third = [7u16; 66049];
    let got = call(lent, nodes, second, other, &mut third, room.value);
    after(line, room.next, got, lent, &third)
}

// Makes the call on as many records of the third table as are lent.
fn call(
    lent: Lent,
    nodes: &[u16],
    second: Lent,
    other: &[u16],
    third: &mut [u16],
    room: usize,
) -> Result<usize, Refusal> {
    let end = (257 * room.min(257)).min(third.len());
    call_intersection::intersect(
        layout(lent.rack),
        lent.n,
        nodes,
        lent.have,
        layout(second.rack),
        second.n,
        other,
        second.have,
        &mut third[0..end],
        room,
    )
}

// 1, 2 or 3, of the answer at a place of the line and the third table after the call.
fn after(line: &[u8], at: usize, got: Result<usize, Refusal>, lent: Lent, third: &[u16]) -> usize
    ensures { result ≤ 3 }
{
    match answers::compare(line, at, got) {
        Compared::Done(next) if fills::is_tree(line, next, lent, third) => 1,
        Compared::Refused if test_tables::all_are(third, 7) => 2,
        _ => 3,
    }
}
