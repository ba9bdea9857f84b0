// What the programs of the outside vectors read: a file, and its numbers, layouts, leaves and bytes.
#![tactic(auto)]

ghost use Rattle.std.specs.Prelude.{◌≤◌, ◌≡◌, length, MatchOption};
ghost use Rattle.std.specs.Io.{ReadsAtMost};

use spec_orders::Layout;
use std::io::Read;
use std::rt::Files;
use std::{fs, io};

// 1,048,576 zeros: more than any of the files has.
pub fn buffer() -> [u8; 1048576]
    ensures { 1048576 ≡ length result }
{
    [0; 1048576]
}

// Reads the file to the start of the table, as much as there is room for, and answers how many bytes. Fails where it does not open or a read fails:
// then the start of the table may hold what was read before.
pub fn read_file(rt: &impl Files, name: &str, table: &mut [u8]) -> io::Result<usize>
    ensures { ReadsAtMost result table.new }
{
    let mut file = fs::open(rt, name)?;
    let mut done = 0;
    // By a count, as each read says how many bytes it had.
    while done < table.len() {
        let n = file.read(&mut table[done..])?;
        if n == 0 {
            break;
        }
        done += n;
    }
    Ok(done)
}

// Where b is next, from a place on; the end where there is none.
pub fn find(text: &[u8], from: usize, b: u8) -> usize
    requires { from ≤ length text.now }
    ensures { (from ≤ result) × (result ≤ length text.now) }
{
    match text[from..].iter().position(|x| *x == b) {
        Some(i) => from + i,
        None => text.len(),
    }
}

// A hexadecimal digit's value.
fn value(b: u8) -> Option<u8>
    ensures { MatchOption result Unit (λ x. x ≤ 15) }
{
    match b {
        b'0'..=b'9' => Some(b - b'0'),
        b'a'..=b'f' => Some(b - b'a' + 10),
        _ => None,
    }
}

// The number that the text is; the largest usize where it is none, or above that.
pub fn number(text: &[u8]) -> usize {
    if text.is_empty() {
        return usize::MAX;
    }
    let mut v: usize = 0;
    for &b in text {
        match b {
            b'0'..=b'9' => v = v.saturating_mul(10).saturating_add((b - b'0') as usize),
            _ => return usize::MAX,
        }
    }
    v
}

// The text without the b that it ends in, if it does.
fn without_end(text: &[u8], b: u8) -> &[u8] {
    match text.split_last() {
        Some((last, rest)) if *last == b => rest,
        _ => text,
    }
}

// Writes the numbers of the text, with b between them, as many as there is room for, and answers how many.
pub fn numbers(text: &[u8], b: u8, out: &mut [usize]) -> usize
    ensures { result ≤ length out.old }
{
    let mut many = 0;
    for part in text.split_inclusive(|x| *x == b) {
        if many == out.len() {
            return many;
        }
        out[many] = number(without_end(part, b));
        many += 1;
    }
    many
}

// The letter of a line: its first byte; 0 where it is empty.
pub fn letter(line: &[u8]) -> u8 {
    line.first().copied().unwrap_or(0)
}

// Writes the numbers of a line that has a space before each, and answers how many.
pub fn line_numbers(line: &[u8], out: &mut [usize]) -> usize
    ensures { result ≤ length out.old }
{
    if line.len() < 2 {
        return 0;
    }
    numbers(&line[2..], b' ', out)
}

// The number at a place; 0 past the end.
pub fn at(numbers: &[usize], i: usize) -> usize {
    numbers.get(i).copied().unwrap_or(0)
}

// The layout that a number names: 0 is a ring, any other number a rack.
pub fn layout(number: usize) -> Layout {
    Layout::from(number.min(1) as u8)
}

// The number of the table at i is the low 16 bits of x, where there is room.
pub fn set_number(table: &mut [u16], i: usize, x: usize) {
    if let Some(place) = table.get_mut(i) {
        *place = (x % 65536) as u16;
    }
}

// The word of the table at i is x, where there is room.
pub fn set_word(table: &mut [u64], i: usize, x: usize) {
    if let Some(place) = table.get_mut(i) {
        *place = x as u64;
    }
}

// Writes the numbers from a place on to a list of leaves, as many as there is room for, and answers how many.
pub fn leaves(numbers: &[usize], from: usize, list: &mut [u16]) -> usize
    ensures { result ≤ length list.old }
{
    let Some(rest) = numbers.get(from..) else {
        return 0;
    };
    for (leaf, x) in list.iter_mut().zip(rest) {
        *leaf = (*x % 65536) as u16;
    }
    rest.len().min(list.len())
}

// The same, to a text.
pub fn bytes(numbers: &[usize], from: usize, text: &mut [u8]) -> usize
    ensures { result ≤ length text.old }
{
    let Some(rest) = numbers.get(from..) else {
        return 0;
    };
    for (byte, x) in text.iter_mut().zip(rest) {
        *byte = (*x % 256) as u8;
    }
    rest.len().min(text.len())
}

// Writes the leaves of a group, at most 256 numbers with commas between them, as many as there is room for, and answers how many.
pub fn group(text: &[u8], list: &mut [u16]) -> usize
    ensures { result ≤ length list.old }
{
    let mut space = [0usize; 256];
    let k = numbers(text, b',', &mut space);
    leaves(&space[0..k], 0, list)
}

// Writes the bytes of the hexadecimal text, as many as there are and as there is room for, and answers how many.
pub fn hex_bytes(text: &[u8], out: &mut [u8]) -> usize
    ensures { result ≤ length out.old }
{
    let most = out.len().min(text.len() / 2);
    for i in 0..most {
        let (Some(a), Some(b)) = (value(text[2 * i]), value(text[2 * i + 1])) else {
            return i;
        };
        out[i] = 16 * a + b;
    }
    most
}
