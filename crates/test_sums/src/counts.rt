// How many cases had each outcome: 4n + 1 done as in the file, 4n + 2 refused as in the file, 4n + 3 another answer.
ghost use Rattle.std.specs.Prelude.{◌≤◌, ◌*◌};

use std::io;

// One more at i, where there is room.
pub fn add(sums: &mut [u64], i: usize) {
    if i < sums.len() && sums[i] <= 1000000 {
        sums[i] += 1;
    }
}

// The count at i, at most a million.
fn get(sums: &[u64], i: usize) -> u64
    ensures { result ≤ 1000000 }
{
    if i < sums.len() {
        sums[i].min(1000000)
    } else {
        0
    }
}

// Prints a line for each n that has cases, and one for all. Fails where a write fails.
pub fn print(rt: &impl Print, sums: &[u64]) -> io::Result<()> {
    let mut kept: u64 = 0;
    let mut none: u64 = 0;
    let mut bad: u64 = 0;
    for n in 0..257 {
        let a = get(sums, 4 * n + 1);
        let b = get(sums, 4 * n + 2);
        let c = get(sums, 4 * n + 3);
        family(rt, n as u64, a, b, c)?;
        kept += a;
        none += b;
        bad += c;
    }
    print!(rt; "total: ")?;
    numbers(rt, kept + none + bad, none, bad)
}

// The line of one n.
fn family(rt: &impl Print, n: u64, kept: u64, none: u64, bad: u64) -> io::Result<()>
    requires { (kept ≤ 1000000) × (none ≤ 1000000) × (bad ≤ 1000000) }
{
    let all = kept + none + bad;
    if all == 0 {
        return Ok(());
    }
    print!(rt; "n {n}: ")?;
    numbers(rt, all, none, bad)
}

fn numbers(rt: &impl Print, all: u64, none: u64, bad: u64) -> io::Result<()> {
    println!(rt; "{all} cases, {none} refused, {bad} bad")
}
