// The file of a test load, written to lent bytes.
#![tactic(auto)]

ghost use Rattle.std.specs.Prelude.{[], ℕ, ◌+◌, ◌*◌, ◌≤◌, length};
ghost use Rattle.spec_orders.specs.Lists.{All};
ghost use Rattle.spec_load.specs.TestLoad.{run, load_file};
ghost use Rattle.tree_tokens.specs.Tokens.{Wrote};
ghost use Rattle.load_file.specs.Lines.{name_line, group_line, group_lines, Places, Marked};

use load_draws::Generator;

// Writes the names of so many bins from b on, with one space between and a line end after the last. Returns how many bytes.
fn write_names(b: usize, many: usize, out: &mut [u8]) -> usize
    requires { (1 ≤ many) × (b + many ≤ 257) × (length (name_line b many) ≤ length out.old) }
    ensures { Wrote (name_line b many) out.old out.new result }
{
    let k = byte_write::write_number(b, out);
    if many == 1 {
        out[k] = b'\n';
        return k + 1;
    }
    out[k] = b' ';
    k + 1 + write_names(b + 1, many - 1, &mut out[k + 1..])
}

// Writes the line of a group with none of n bins. Returns how many bytes.
fn write_empty(n: usize, out: &mut [u8]) -> usize
    requires { (1 ≤ n) × (2 * n ≤ length out.old) }
    ensures { Wrote (group_line n []) out.old out.new result }
{
    out[0] = b'0';
    if n == 1 {
        out[1] = b'\n';
        return 2;
    }
    out[1] = b' ';
    2 + write_empty(n - 1, &mut out[2..])
}

// Puts these bins, too, into the group whose line the bytes begin with.
fn mark(bins: &[u16], line: &mut [u8])
    requires { All (λ b. (1 ≤ b) × (2 * b ≤ length line.old)) bins.now }
    ensures { (n : ℕ) → All (λ b. (1 ≤ b) × (b ≤ n)) bins.now → Marked n bins.now line.old line.new }
{
    for &b in bins {
        line[2 * (b as usize - 1)] = b'1';
    }
}

// Writes the line of the group of so many bins from a start place on, round the circle of places. Returns how many bytes.
fn write_group(places: &[u16], start: usize, many: usize, out: &mut [u8]) -> usize
    requires { (Places places.now) × (1 ≤ start) × (start ≤ length places.now) × (many ≤ length places.now) × (2 * length places.now ≤ length out.old) }
    ensures { Wrote (group_line (length places.now) (run places.now start many)) out.old out.new result }
{
    let n = places.len();
    let first = start - 1;
    let k = write_empty(n, out);
    if first + many <= n {
        mark(&places[first..first + many], out);
        return k;
    }
    mark(&places[first..n], out);
    mark(&places[0..first + many - n], out);
    k
}

// Draws so many groups, a start place and a length for each, and writes the line of each. Returns how many bytes.
fn write_groups(generator: Generator, places: &[u16], groups: usize, out: &mut [u8]) -> usize
    requires { (Places places.now) × (length (group_lines places.now groups generator.state) ≤ length out.old) }
    ensures { Wrote (group_lines places.now groups generator.state) out.old out.new result }
{
    if groups == 0 {
        return 0;
    }
    let n = places.len();
    let start = generator.draw(n);
    let length = start.next.draw(n);
    let k = write_group(places, start.number, length.number, out);
    k + write_groups(length.next, places, groups - 1, &mut out[k..])
}

// Writes the file of a test load of as many bins as there are places, which get its circle. Returns how many bytes.
fn write_circle(places: &mut [u16], seed: u32, groups: usize, out: &mut [u8]) -> usize
    requires { (1 ≤ length places.old) × (length places.old ≤ 256) × (groups ≤ 96) × (65536 ≤ length out.old) }
    ensures { Wrote (load_file (length places.old) seed groups) out.old out.new result }
{
    let generator = load_draws::circle(Generator { state: seed }, places);
    let k = write_names(1, places.len(), out);
    k + write_groups(generator, places, groups, &mut out[k..])
}

// Writes the file of a test load of n bins. Returns how many bytes.
pub fn write_load(n: usize, seed: u32, groups: usize, out: &mut [u8]) -> usize
    requires { (1 ≤ n) × (n ≤ 256) × (groups ≤ 96) × (65536 ≤ length out.old) }
    ensures { Wrote (load_file n seed groups) out.old out.new result }
{
    let mut places = [0u16; 256];
    write_circle(&mut places[0..n], seed, groups, out)
}
