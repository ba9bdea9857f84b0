// The ring file: whether it is accepted, and its names and groups, read where they stand.
#![tactic(auto)]

ghost use Rattle.std.specs.Prelude.{◌≡◌, ◌+◌, ◌≤◌, length, MatchResult};
ghost use Rattle.tree_tokens.specs.Tokens.{Wrote};
ghost use Rattle.file_read.specs.RingFile.{name_in, name_start, line_in, value_in, group_for, Says, told, told_of};
ghost use Rattle.file_read.specs.Reach.{CursorReaches};

mod ring_file;

use file_cursor::Cursor;
pub use ring_file::RingFile;
use spec_calls::Refusal;

// What an accepted file holds: a ring of `names` leaves, a names line of `head` bytes, and `lines` lines of values.
#[derive(Clone, Copy)]
pub struct Scanned {
    pub names: usize,
    pub head: usize,
    pub lines: usize,
}

// A part of a file: its first byte, and how many bytes it has. Two numbers, since the C interface hands them out.
#[derive(Drop)]
pub struct Part {
    pub start: usize,
    pub length: usize,
}

// Reads the file: what it holds, or the byte at which it is refused.
pub fn scan(file: &[u8]) -> Result<Scanned, Refusal>
    ensures { Says file.now (told result) }
{
    if 65536 < file.len() {
        return Err(Refusal::RingFile(65536));
    }
    let cursor = run(file)?;
    if !cursor.may_end() {
        return Err(Refusal::RingFile(file.len()));
    }
    Ok(Scanned {
        names: cursor.names,
        head: cursor.start,
        lines: cursor.lines,
    })
}

// The cursor after the whole file, or the byte at which the file is refused.
fn run(file: &[u8]) -> Result<Cursor, Refusal>
    requires { length file.now ≤ 65536 }
    ensures { MatchResult result (λ c. CursorReaches file.now (length file.now) c) (λ why. Says file.now (told_of why)) }
{
    let mut cursor = Cursor::start();
    for at in 0..file.len() {
        let Some(next) = cursor.advance(file, at) else {
            return Err(Refusal::RingFile(at));
        };
        cursor = next;
    }
    Ok(cursor)
}

// Where name number k, from 0, stands: word number k of the first line. 0 and 0 where there is no such word.
pub fn name_at(file: &[u8], k: usize) -> Part
    ensures { (result.start ≡ name_start file.now k) × (result.length ≡ length (name_in file.now k)) }
{
    let start = file_words::place(file, k);
    if file.len() < start {
        return Part {
            start: 0,
            length: 0,
        };
    }
    let length = file_words::word_end(&file[start..]);
    Part { start, length }
}

// Name number k, from 0, as the part of the file that `name_at` tells: its bytes, and the place at which they stand. No byte where there is no such
// name.
pub fn name_of(file: &[u8], k: usize) -> &[u8]
    ensures result_value { result.now ≡ name_in file.now k }
    ensures ref_ptr_value { result.ref_ptr ≡ (file.entry.ref_ptr.0, name_start file.now k + file.entry.ref_ptr.1) }
{
    let part = name_at(file, k);
    let start = part.start;
    let end = start + part.length;
    &file[start..end]
}

// The bytes of value line l, from 0, in a file with so many names, at most 256, and a names line of head bytes. No byte where there is no such
// line.
fn line_of(file: &[u8], names: usize, head: usize, l: usize) -> &[u8]
    ensures { result.now ≡ line_in file.now names head l }
{
    if names == 0 {
        return &file[0..0];
    }
    if 256 < names {
        return &file[0..0];
    }
    if file.len() < head {
        return &file[0..0];
    }
    let width = 2 * names;
    if (file.len() - head) / width <= l {
        return &file[0..0];
    }
    let start = head + l * width;
    let end = start + width;
    &file[start..end]
}

// Whether value number i of value line l, both from 0, is `1`, in a file with so many names, at most 256, and a names line of head bytes. False
// where there is no such value. (The first test keeps 2 * i from overflowing.)
pub fn value_of(file: &[u8], names: usize, head: usize, l: usize, i: usize) -> bool
    ensures { result ≡ value_in file.now names head l i }
{
    let values = line_of(file, names, head, l);
    if values.len() <= i {
        return false;
    }
    if values.len() <= 2 * i {
        return false;
    }
    values[2 * i] == b'1'
}

// Writes the group of value line l, from 0, in a file with so many names, at most 256, and a names line of head bytes, to the start of the list: its
// leaves, rising. Returns how many. Nothing is written where there is no such line, or the list has fewer places than there are names.
pub fn group_of(file: &[u8], names: usize, head: usize, l: usize, list: &mut [u16]) -> usize
    ensures wrote { Wrote (group_for (length list.old) file.now names head l) list.old list.new result }
    ensures upper_bound { result ≤ length list.old }
{
    if list.len() < names {
        return 0;
    }
    let values = line_of(file, names, head, l);
    if values.len() == 0 {
        return 0;
    }
    let mut k = 0;
    for leaf in 0..names {
        if values[2 * leaf] == b'1' {
            list[k] = leaf as u16 + 1;
            k += 1;
        }
    }
    k
}
