// The calls that open a ring or a rack, join a group and try one, for C and Rust, on a node table of rows of 257 numbers, one row a record. Each
// returns 0, or the number of its refusal, and writes one number through `value`: its own answer; or the place or byte of the refusal, 0 where the
// table names none. Written by tools/outer.py.
#![tactic(auto)]

ghost use Rattle.spec_orders.specs.Layout.{layout_numbered};
ghost use Rattle.spec_calls.specs.Tables.{lent_rows, lent_book};
ghost use Rattle.spec_calls.specs.Refusals.{reply};
ghost use Rattle.spec_calls.specs.Promises.{OpenPromise, JoinPromise, TrialPromise};

use spec_orders::Layout;

// Opens a ring or a rack of n bins: its node table gets the fresh tree, and its book is emptied. The value is the count of groups, 0.
#[unsafe(no_mangle)]
pub extern "C" fn tokuwhape_open(
    layout: u8,
    n: usize,
    nodes: &mut [u16],
    book: &mut [u64],
    value: &mut usize,
) -> u8
    ensures { OpenPromise (lent_rows (layout_numbered layout) n nodes.old) (lent_book book.old 0) nodes.new (lent_book book.new 0) (reply result value.new) }
{
    let layout = Layout::from(layout);
    let have = c_rows::records(nodes);
    let answer = call_update::open(layout, n, nodes, have, book);
    spec_calls::code(answer, value)
}

// Joins the list's group, which may be empty: the node table gets the new tree, and the group takes the book's next place. The value is the new count
// of groups.
#[unsafe(no_mangle)]
pub extern "C" fn tokuwhape_join(
    layout: u8,
    n: usize,
    nodes: &mut [u16],
    book: &mut [u64],
    count: usize,
    list: &[u16],
    value: &mut usize,
) -> u8
    ensures { JoinPromise (lent_rows (layout_numbered layout) n nodes.old) (lent_book book.old count) list.now nodes.new (lent_book book.new count) (reply result value.new) }
{
    let layout = Layout::from(layout);
    let have = c_rows::records(nodes);
    let answer = call_update::join(layout, n, nodes, have, book, count, list);
    spec_calls::code(answer, value)
}

// Answers as joining the list's group would, and changes nothing.
#[unsafe(no_mangle)]
pub extern "C" fn tokuwhape_trial(
    layout: u8,
    n: usize,
    nodes: &[u16],
    book: &[u64],
    count: usize,
    list: &[u16],
    value: &mut usize,
) -> u8
    ensures { TrialPromise (lent_rows (layout_numbered layout) n nodes.now) (lent_book book.now count) list.now (reply result value.new) }
{
    let layout = Layout::from(layout);
    let have = c_rows::records(nodes);
    let answer = call_update::trial(layout, n, nodes, have, book, count, list);
    spec_calls::code(answer, value)
}
