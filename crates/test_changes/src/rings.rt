// What a line lends: a ring or a rack, its node table, and the size of a second table.
use crate::fields;
use crate::fields::Field;
use test_fields::layout;

// What is lent beside the tables: 0 for a ring or 1 for a rack, n, how many records, the numbers that these are, how many entries of the second
// table, and the book's count; and where the next field begins. What the line does not have is 0.
#[derive(Clone, Copy)]
pub struct Lent {
    pub rack: usize,
    pub n: usize,
    pub have: usize,
    pub numbers: usize,
    pub size: usize,
    pub count: usize,
    pub next: usize,
}

// Reads the fields `n rack rec` at a place.
fn records(line: &[u8], at: usize) -> Lent {
    let n = fields::number(line, at);
    let rack = fields::number(line, n.next);
    let have = fields::number(line, rack.next);
    Lent {
        rack: rack.value,
        n: n.value,
        have: have.value,
        numbers: 257 * have.value.min(257),
        size: 0,
        count: 0,
        next: have.next,
    }
}

// Reads the fields `n rack rec size` of a line.
fn sized(line: &[u8]) -> Lent {
    let mut lent = records(line, 2);
    let size = fields::number(line, lent.next);
    lent.size = size.value;
    lent.next = size.next;
    lent
}

// Reads the field TREE into a table of zeros. Past the 256 records stands a 7.
fn with_tree(line: &[u8], mut lent: Lent, nodes: &mut [u16]) -> Lent {
    lent.next = fields::tree(line, lent.next, layout(lent.rack), lent.n, nodes);
    test_fields::set_number(nodes, 65792, 7);
    lent
}

// Reads the node table at a place of a line, `n rack rec TREE`, into a table of zeros.
pub fn nodes(line: &[u8], at: usize, nodes: &mut [u16]) -> Lent {
    with_tree(line, records(line, at), nodes)
}

// Reads the node table of a line, `n rack rec size TREE`, into a table of zeros.
pub fn tree(line: &[u8], nodes: &mut [u16]) -> Lent {
    with_tree(line, sized(line), nodes)
}

// Reads the sizes of a line, `n rack rec words days`, where days is 0.
pub fn sizes(line: &[u8]) -> Lent {
    let mut lent = sized(line);
    let days = fields::number(line, lent.next);
    lent.next = days.next;
    lent
}

// Reads both tables of a line, `n rack rec words days TREE BOOK DAYS`, into tables of zeros.
pub fn ring(line: &[u8], nodes: &mut [u16], book: &mut [u64]) -> Lent {
    let mut lent = with_tree(line, sizes(line), nodes);
    let groups = groups(line, lent.next, book);
    lent.count = groups.value;
    lent.next = groups.next;
    lent
}

// Reads the fields BOOK DAYS at a place into a table of zeros. Past the 384 words stands a 7. The value is the book's count.
pub fn groups(line: &[u8], at: usize, book: &mut [u64]) -> Field {
    let groups = fields::book(line, at, book);
    test_fields::set_word(book, 384, 7);
    let days = fields::number(line, groups.next);
    Field {
        value: groups.value,
        next: days.next,
    }
}
