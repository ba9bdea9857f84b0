// The commands of a script of calls that lend the tables of a ring (rack is 0) or of a rack (1). A number that is missing counts as 0, and a part
// that is longer than its table as the whole table.
//
//   O rack n have a b               open, on the first a numbers of the node table and the first b words of the book
//   J rack n have a b count list    join the group of the list;  T: try it
//   A rack n have a b count k       the aim of the book's group k
//   R rack n have a b bytes         read the tree text of these bytes
//   N i v, B i v                    the node table's number i, or the book's word i, is v
//   S rack n have a c               the standard order, into the first c places of the order
//   W rack n have a c               the tree text, into the first c bytes
#![tactic(auto)]

use spec_calls::Refusal;
use spec_orders::Layout;
use std::io;
use test_fields::{at, layout};

// Obeys the commands O, J, T, A, R, N and B; another letter changes nothing. Fails where a write fails, as do those below: the command is then done.
pub fn on_ring(
    rt: &impl Print,
    letter: u8,
    numbers: &[usize],
    nodes: &mut [u16],
    book: &mut [u64],
) -> io::Result<()> {
    match letter {
        b'N' => test_fields::set_number(nodes, at(numbers, 0), at(numbers, 1)),
        b'B' => test_fields::set_word(book, at(numbers, 0), at(numbers, 1)),
        _ => return lend_ring(rt, letter, numbers, nodes, book),
    }
    Ok(())
}

// Obeys the commands S and W; another letter changes nothing.
pub fn into_table(
    rt: &impl Print,
    letter: u8,
    numbers: &[usize],
    nodes: &[u16],
    order: &mut [u16],
    bytes: &mut [u8],
) -> io::Result<()> {
    match letter {
        b'S' => standard(rt, numbers, nodes, order),
        b'W' => tree_text(rt, numbers, nodes, bytes),
        _ => Ok(()),
    }
}

// Prints a call's letter and what it returned: 0 and the value, or the refusal's number and its place.
pub fn answer(rt: &impl Print, letter: u8, got: Result<usize, Refusal>) -> io::Result<()> {
    let text = [letter];
    rt.write_all(&text)?;
    match got {
        Ok(value) => done(rt, value),
        Err(refusal) => refused(rt, refusal),
    }
}

fn done(rt: &impl Print, value: usize) -> io::Result<()> {
    test_sums::number(rt, 0)?;
    test_sums::number(rt, value as u64)
}

fn refused(rt: &impl Print, refusal: Refusal) -> io::Result<()> {
    let k = refusal.number();
    test_sums::number(rt, k as u64)?;
    if has_place(k) {
        test_sums::number(rt, refusal.place() as u64)?;
    }
    Ok(())
}

// Whether a place or byte is returned with a refusal's number.
fn has_place(k: u8) -> bool {
    matches!(k, 5 | 6 | 11 | 12)
}

// Whether it is the letter of a call that takes a node table and a book.
fn on_both(letter: u8) -> bool {
    matches!(letter, b'O' | b'J' | b'T' | b'A' | b'R')
}

// Makes the call on the first parts of the tables, and prints its answer.
fn lend_ring(
    rt: &impl Print,
    letter: u8,
    numbers: &[usize],
    nodes: &mut [u16],
    book: &mut [u64],
) -> io::Result<()> {
    if !on_both(letter) {
        return Ok(());
    }
    let layout = layout(at(numbers, 0));
    let n = at(numbers, 1);
    let have = at(numbers, 2);
    let a = at(numbers, 3).min(nodes.len());
    let b = at(numbers, 4).min(book.len());
    let got = call(
        letter,
        numbers,
        layout,
        n,
        &mut nodes[0..a],
        have,
        &mut book[0..b],
    );
    answer(rt, letter, got)?;
    test_sums::ring(rt, nodes, book)
}

// The call's answer.
fn call(
    letter: u8,
    numbers: &[usize],
    layout: Layout,
    n: usize,
    nodes: &mut [u16],
    have: usize,
    book: &mut [u64],
) -> Result<usize, Refusal> {
    match letter {
        b'O' => call_update::open(layout, n, nodes, have, book),
        b'J' => join(numbers, layout, n, nodes, have, book),
        b'T' => trial(numbers, layout, n, nodes, have, book),
        b'A' => call_order::aim(layout, n, nodes, have, book, at(numbers, 5), at(numbers, 6)),
        _ => read(numbers, layout, n, nodes, have, book),
    }
}

fn join(
    numbers: &[usize],
    layout: Layout,
    n: usize,
    nodes: &mut [u16],
    have: usize,
    book: &mut [u64],
) -> Result<usize, Refusal> {
    let mut list = [0u16; 512];
    let k = test_fields::leaves(numbers, 6, &mut list);
    call_update::join(layout, n, nodes, have, book, at(numbers, 5), &list[0..k])
}

fn trial(
    numbers: &[usize],
    layout: Layout,
    n: usize,
    nodes: &[u16],
    have: usize,
    book: &[u64],
) -> Result<usize, Refusal> {
    let mut list = [0u16; 512];
    let k = test_fields::leaves(numbers, 6, &mut list);
    call_update::trial(layout, n, nodes, have, book, at(numbers, 5), &list[0..k])
}

fn read(
    numbers: &[usize],
    layout: Layout,
    n: usize,
    nodes: &mut [u16],
    have: usize,
    book: &mut [u64],
) -> Result<usize, Refusal> {
    let mut bytes = [0u8; 2304];
    let k = test_fields::bytes(numbers, 5, &mut bytes);
    call_text::read(layout, n, nodes, have, book, &bytes[0..k])
}

fn standard(
    rt: &impl Print,
    numbers: &[usize],
    nodes: &[u16],
    order: &mut [u16],
) -> io::Result<()> {
    let layout = layout(at(numbers, 0));
    let n = at(numbers, 1);
    let have = at(numbers, 2);
    let a = at(numbers, 3).min(nodes.len());
    let c = at(numbers, 4).min(order.len());
    let got = call_order::order(layout, n, &nodes[0..a], have, &mut order[0..c]);
    answer(rt, b'S', got)?;
    test_sums::nodes_and_order(rt, nodes, order)
}

fn tree_text(
    rt: &impl Print,
    numbers: &[usize],
    nodes: &[u16],
    bytes: &mut [u8],
) -> io::Result<()> {
    let layout = layout(at(numbers, 0));
    let n = at(numbers, 1);
    let have = at(numbers, 2);
    let a = at(numbers, 3).min(nodes.len());
    let c = at(numbers, 4).min(bytes.len());
    let got = call_text::write(layout, n, &nodes[0..a], have, &mut bytes[0..c]);
    answer(rt, b'W', got)?;
    test_sums::nodes_and_text(rt, nodes, bytes)
}
