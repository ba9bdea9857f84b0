// Runs the vectors of document 02 through the calls, compares each answer with the file's, and counts the cases by n.
#![tactic(auto)]

mod aims;
mod answers;
mod fields;
mod fills;
mod intersections;
mod lists;
mod rings;
mod texts;
mod updates;

use std::io;
use std::rt::Files;

fn main(rt: HostRuntime) -> io::Result<()> {
    file(&rt, "01_intersection.txt")?;
    file(&rt, "01_intersection_large.txt")?;
    file(&rt, "02_empty.txt")?;
    file(&rt, "03_aim.txt")?;
    file(&rt, "04_trial.txt")?;
    file(&rt, "05_threes.txt")?;
    file(&rt, "06_racks.txt")?;
    file(&rt, "06_racks_refusals.txt")
}

// Reads a file, counts the outcome of each line, and prints its name and the counts.
fn file(rt: &(impl Files + Print), name: &str) -> io::Result<()> {
    let mut bytes = test_fields::buffer();
    let n = test_fields::read_file(rt, name, &mut bytes)?;
    let mut sums = [0u64; 1028];
    run(&bytes[..n], &mut sums);
    println!(rt; "{name}")?;
    test_sums::print(rt, &sums)
}

// Counts the outcome of each line.
fn run(text: &[u8], sums: &mut [u64]) {
    for line in text.split_inclusive(|b| *b == b'\n') {
        test_sums::add(sums, outcome(line.strip_suffix(b"\n").unwrap_or(line)));
    }
}

// 4n + 1 where the answer is done as in the file, 4n + 2 where it is refused as in the file, 4n + 3 where it is another; 0 for a comment. n is the
// first number of the line, 256 where that is more.
fn outcome(line: &[u8]) -> usize {
    let n = fields::number(line, 2).value.min(256);
    match test_fields::letter(line) {
        b'#' => 0,
        b'A' => 4 * n + aims::outcome(line),
        b'C' => 4 * n + lists::conflicted(line),
        b'I' => 4 * n + intersections::outcome(line),
        b'J' => 4 * n + updates::joined(line),
        b'O' => 4 * n + fills::opened(line),
        b'R' => 4 * n + fills::read(line),
        b'S' => 4 * n + lists::ordered(line),
        b'T' => 4 * n + updates::tried(line),
        b'W' => 4 * n + texts::outcome(line),
        _ => 4 * n + 3,
    }
}
