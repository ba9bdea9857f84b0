// The fields of a line of document 02's vectors, with single spaces between them. A field that is missing is read as the largest usize.
ghost use Rattle.std.specs.Prelude.{◌≤◌, length};

use spec_orders::Layout;

// What a field holds, and where the next one begins.
#[derive(Clone, Copy)]
pub struct Field {
    pub value: usize,
    pub next: usize,
}

// The number of the field at a place.
pub fn number(line: &[u8], at: usize) -> Field {
    let from = at.min(line.len());
    let end = test_fields::find(line, from, b' ');
    Field {
        value: test_fields::number(&line[from..end]),
        next: end + 1,
    }
}

// Writes the bytes at a place, their count and then two hexadecimal digits for each, to the start of out. The value is how many.
pub fn bytes(line: &[u8], at: usize, out: &mut [u8]) -> Field
    ensures { result.value ≤ length out.old }
{
    let many = number(line, at);
    if many.value == 0 {
        return many;
    }
    let from = many.next.min(line.len());
    let end = test_fields::find(line, from, b' ');
    let k = test_fields::hex_bytes(&line[from..end], out);
    Field {
        value: k,
        next: end + 1,
    }
}

// Puts the numbers at a place, how many and then a place of the table and a value for each, into the table. Answers where the next field begins.
fn changes(line: &[u8], at: usize, table: &mut [u16]) -> usize {
    let many = number(line, at);
    let count = many.value.min(1000);
    let mut from = many.next;
    for _ in 0..count {
        let place = number(line, from);
        let value = number(line, place.next);
        test_fields::set_number(table, place.value, value.value);
        from = value.next;
    }
    from
}

// Reads a tree text, if it has bytes, into a table.
fn read_text(layout: Layout, n: usize, text: &[u8], table: &mut [u16]) {
    if !text.is_empty() {
        let mut book = [0u64; 384];
        let _ = call_text::read(layout, n, table, 256, &mut book, text);
    }
}

// Reads the tree text at a place into a table of zeros, and then changes it. Answers where the next field begins.
pub fn tree(line: &[u8], at: usize, layout: Layout, n: usize, table: &mut [u16]) -> usize {
    let mut text = [0u8; 2304];
    let read = bytes(line, at, &mut text);
    let k = read.value;
    read_text(layout, n, &text[0..k], table);
    changes(line, read.next, table)
}

// Writes so many words, one a field from a place on, to the start of a table. Answers where the next field begins.
pub fn words(line: &[u8], at: usize, count: usize, table: &mut [u64]) -> usize {
    let mut from = at;
    for i in 0..count {
        let word = number(line, from);
        test_fields::set_word(table, i, word.value);
        from = word.next;
    }
    from
}

// Writes the words of the book at a place, its count, how many groups and then four words for each, to the start of a table. The value is the
// count.
pub fn book(line: &[u8], at: usize, table: &mut [u64]) -> Field {
    let count = number(line, at);
    let groups = number(line, count.next);
    let next = words(line, groups.next, 4 * groups.value.min(96), table);
    Field {
        value: count.value,
        next,
    }
}

// Writes the list at a place, how many numbers and then each, to the start of out. The value is how many.
pub fn list(line: &[u8], at: usize, out: &mut [u16]) -> Field
    ensures { result.value ≤ length out.old }
{
    let many = number(line, at);
    let count = many.value.min(out.len());
    let mut from = many.next;
    for i in 0..count {
        let x = number(line, from);
        test_fields::set_number(out, i, x.value);
        from = x.next;
    }
    Field {
        value: count,
        next: from,
    }
}
