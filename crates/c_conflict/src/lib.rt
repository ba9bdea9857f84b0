// The call that lists the groups in conflict, for C and Rust. Each returns 0, or the number of its refusal, and writes one number through `value`:
// its own answer; or the place or byte of the refusal, 0 where the table names none. Written by tools/outer.py.
#![tactic(auto)]

ghost use Rattle.spec_orders.specs.Layout.{layout_numbered};
ghost use Rattle.spec_calls.specs.Tables.{lent_book};
ghost use Rattle.spec_calls.specs.Refusals.{reply};
ghost use Rattle.spec_calls.specs.Promises.{ConflictPromise};

use spec_orders::Layout;

// Writes the numbers of the book's groups in conflict with the list's group, rising, then zeros, to the first 96 places of conflicts: none where the
// whole book and the group can be consecutive together. The value is how many numbers.
#[unsafe(no_mangle)]
pub extern "C" fn tokuwhape_conflict(
    layout: u8,
    n: usize,
    book: &[u64],
    count: usize,
    list: &[u16],
    conflicts: &mut [u16],
    value: &mut usize,
) -> u8
    ensures { ConflictPromise (layout_numbered layout) n (lent_book book.now count) list.now conflicts.old conflicts.new (reply result value.new) }
{
    let layout = Layout::from(layout);
    let answer = call_conflict::conflict(layout, n, book, count, list, conflicts);
    spec_calls::code(answer, value)
}
