// Runs the cases of joins.txt (a tree text, a group, the text after joining) and of texts.txt (a text, accepted and written again, or refused at a
// byte) through the calls, compares each answer with the file's, and counts the cases by n.
#![tactic(auto)]

ghost use Rattle.std.specs.Prelude.{◌≤◌};

mod joins;
mod texts;

use std::io;
use std::rt::Files;

fn main(rt: HostRuntime) -> io::Result<()> {
    println!(rt; "joins")?;
    file(&rt, "joins.txt", true)?;
    println!(rt; "texts")?;
    file(&rt, "texts.txt", false)
}

// Reads a file, counts the outcome of each line, and prints the counts.
fn file(rt: &(impl Files + Print), name: &str, joins: bool) -> io::Result<()> {
    let mut bytes = test_fields::buffer();
    let n = test_fields::read_file(rt, name, &mut bytes)?;
    let mut sums = [0u64; 1028];
    run(&bytes[..n], joins, &mut sums);
    test_sums::print(rt, &sums)
}

// Counts the outcome of each line.
fn run(text: &[u8], joins: bool, sums: &mut [u64]) {
    for line in text.split_inclusive(|b| *b == b'\n') {
        test_sums::add(
            sums,
            outcome(line.strip_suffix(b"\n").unwrap_or(line), joins),
        );
    }
}

// 4n + 1 where the answer is done as in the file, 4n + 2 where it is refused as in the file, 4n + 3 where it is another or the line is no case;
// 0 for a comment. A line is n, another field and the rest, with tabs between them.
fn outcome(line: &[u8], joins: bool) -> usize {
    if test_fields::letter(line) == b'#' {
        return 0;
    }
    let a = test_fields::find(line, 0, b'\t');
    if a >= line.len() {
        return 3;
    }
    let n = test_fields::number(&line[0..a]);
    if n > 256 {
        return 3;
    }
    4 * n + case(n, &line[a + 1..], joins)
}

// 1, 2 or 3, as above, of what is behind n.
fn case(n: usize, text: &[u8], joins: bool) -> usize
    ensures { result ≤ 3 }
{
    let b = test_fields::find(text, 0, b'\t');
    if b >= text.len() {
        return 3;
    }
    fields(n, &text[0..b], &text[b + 1..], joins)
}

// The same, of the field behind n and the rest of the line.
fn fields(n: usize, first: &[u8], rest: &[u8], joins: bool) -> usize
    ensures { result ≤ 3 }
{
    if joins {
        return joins::outcome(n, first, rest);
    }
    texts::outcome(n, first, rest)
}
