// A ring in lent tables.

ghost use Rattle.std.specs.Prelude.{◌≤◌, length};

// A ring: its tree in the first `tokens` of the tokens; its groups in the book, `count` of them, and the input line of each in the table. The tables
// are lent, and long enough for any ring.
#[derive(Drop)]
pub struct Ring<'a> {
    pub toks: &'a mut [u16],
    pub tokens: usize,
    pub book: &'a mut [u64],
    pub table: &'a mut [usize],
    pub count: usize,
    pub ghost tables: { (512 ≤ length toks.now) × (384 ≤ length book.now) × (96 ≤ length table.now) },
}
