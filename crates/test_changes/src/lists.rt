// A line of a call that fills a list: `S n rack rec places TREE = ANSWER`, the standard order; or `C n rack words days places BOOK DAYS LIST =
// ANSWER`, the conflict list, where days and DAYS are 0.
ghost use Rattle.std.specs.Prelude.{◌≤◌};

use crate::answers::Compared;
use crate::rings::Lent;
use crate::{answers, fields, rings};
use spec_calls::Refusal;
use spec_orders::Layout;
use test_fields::layout;

// 1 where the order is made as in the file, 2 where that is refused as in the file, 3 where the answer or the order is another.
pub fn ordered(line: &[u8]) -> usize
    ensures { result ≤ 3 }
{
    let mut nodes = [0u16; 66049];
    let lent = rings::tree(line, &mut nodes);
    let a = lent.numbers.min(66049);
    let mut order = [7u16; 260];
    let got = order_call(lent, &nodes[0..a], &mut order);
    after(line, lent.next, got, lent.n, &order)
}

// Makes the call on as many places of the table as are lent.
fn order_call(lent: Lent, nodes: &[u16], order: &mut [u16]) -> Result<usize, Refusal> {
    let end = lent.size.min(order.len());
    call_order::order(
        layout(lent.rack),
        lent.n,
        nodes,
        lent.have,
        &mut order[0..end],
    )
}

// 1 where the conflict list is made as in the file, 2 where that is refused as in the file, 3 where the answer or the list is another.
pub fn conflicted(line: &[u8]) -> usize
    ensures { result ≤ 3 }
{
    let n = fields::number(line, 2);
    let rack = fields::number(line, n.next);
    let words = fields::number(line, rack.next);
    let days = fields::number(line, words.next);
    let places = fields::number(line, days.next);
    let mut book = [0u64; 388];
    let groups = rings::groups(line, places.next, &mut book);
    let end = words.value.min(388);
    let layout = layout(rack.value);
    of_book(
        line,
        groups.next,
        layout,
        n.value,
        &book[0..end],
        groups.value,
        places.value,
    )
}

// The same, of the group whose list stands at a place of the line.
fn of_book(
    line: &[u8],
    at: usize,
    layout: Layout,
    n: usize,
    book: &[u64],
    count: usize,
    places: usize,
) -> usize
    ensures { result ≤ 3 }
{
    let mut list = [0u16; 512];
    let group = fields::list(line, at, &mut list);
    let k = group.value;
    let mut conflicts = [7u16; 100];
    let got = conflict_call(layout, n, book, count, &list[0..k], &mut conflicts, places);
    after(line, group.next, got, 96, &conflicts)
}

// Makes the call on as many places of the table as are lent.
fn conflict_call(
    layout: Layout,
    n: usize,
    book: &[u64],
    count: usize,
    list: &[u16],
    conflicts: &mut [u16],
    places: usize,
) -> Result<usize, Refusal> {
    let end = places.min(conflicts.len());
    call_conflict::conflict(layout, n, book, count, list, &mut conflicts[0..end])
}

// 1, 2 or 3, of the answer at a place of the line and the table after the call, which held 7 throughout and so many places of which a call that is
// done fills.
fn after(line: &[u8], at: usize, got: Result<usize, Refusal>, filled: usize, table: &[u16]) -> usize
    ensures { result ≤ 3 }
{
    match answers::compare(line, at, got) {
        Compared::Done(next) if is_list(line, next, filled, table) => 1,
        Compared::Refused if test_tables::all_are(table, 7) => 2,
        _ => 3,
    }
}

// Whether the table holds the list at a place of the line, zeros up to the filled places, and still 7 past them.
fn is_list(line: &[u8], at: usize, filled: usize, table: &[u16]) -> bool {
    let mut want = [0u16; 256];
    let _ = fields::list(line, at, &mut want);
    let k = filled.min(256);
    let end = k.min(table.len());
    table[0..end] == want[0..k] && test_tables::all_are(&table[end..], 7)
}
