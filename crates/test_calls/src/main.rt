// Obeys the commands of script.txt, one a line, and prints a line for each call: its letter, what it answered, and a checksum of each table
// lent to it. A command is a letter and numbers, one space before each: one of those of crate test_commands, or
//
//   C rack n b count c list         the conflict list of a group, into the first c places of the conflicts
#![tactic(auto)]

use spec_calls::Refusal;
use std::io;
use test_fields::at;

fn main(rt: HostRuntime) -> io::Result<()> {
    let mut text = test_fields::buffer();
    let n = test_fields::read_file(&rt, "script.txt", &mut text)?;
    with_tables(&rt, &text[..n])
}

// Obeys the script on tables that are each one entry longer than they must be, and hold 7 throughout.
fn with_tables(rt: &impl Print, text: &[u8]) -> io::Result<()> {
    let mut nodes = [7u16; 65793];
    let mut book = [7u64; 385];
    let mut order = [7u16; 257];
    let mut conflicts = [7u16; 97];
    let mut bytes = [7u8; 2049];
    run(
        rt,
        text,
        &mut nodes,
        &mut book,
        &mut order,
        &mut conflicts,
        &mut bytes,
    )
}

// Obeys every line of the script.
fn run(
    rt: &impl Print,
    text: &[u8],
    nodes: &mut [u16],
    book: &mut [u64],
    order: &mut [u16],
    conflicts: &mut [u16],
    bytes: &mut [u8],
) -> io::Result<()> {
    for part in text.split_inclusive(|b| *b == b'\n') {
        let command = part.strip_suffix(b"\n").unwrap_or(part);
        line(rt, command, nodes, book, order, conflicts, bytes)?;
    }
    Ok(())
}

// Obeys the command of one line.
fn line(
    rt: &impl Print,
    text: &[u8],
    nodes: &mut [u16],
    book: &mut [u64],
    order: &mut [u16],
    conflicts: &mut [u16],
    bytes: &mut [u8],
) -> io::Result<()> {
    let letter = test_fields::letter(text);
    let mut space = [0usize; 2304];
    let k = test_fields::line_numbers(text, &mut space);
    let numbers = &space[0..k];
    test_commands::on_ring(rt, letter, numbers, nodes, book)?;
    test_commands::into_table(rt, letter, numbers, nodes, order, bytes)?;
    on_book(rt, letter, numbers, book, conflicts)
}

// Obeys the command C; another letter changes nothing.
fn on_book(
    rt: &impl Print,
    letter: u8,
    numbers: &[usize],
    book: &[u64],
    conflicts: &mut [u16],
) -> io::Result<()> {
    if letter != b'C' {
        return Ok(());
    }
    let b = at(numbers, 2).min(book.len());
    let c = at(numbers, 4).min(conflicts.len());
    let got = conflict_list(numbers, &book[0..b], &mut conflicts[0..c]);
    test_commands::answer(rt, letter, got)?;
    test_sums::book_and_conflicts(rt, book, conflicts)
}

// The answer of the call.
fn conflict_list(numbers: &[usize], book: &[u64], conflicts: &mut [u16]) -> Result<usize, Refusal> {
    let mut list = [0u16; 512];
    let k = test_fields::leaves(numbers, 5, &mut list);
    let layout = test_fields::layout(at(numbers, 0));
    call_conflict::conflict(
        layout,
        at(numbers, 1),
        book,
        at(numbers, 3),
        &list[0..k],
        conflicts,
    )
}
