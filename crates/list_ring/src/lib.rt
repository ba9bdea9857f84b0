// The ring of a ring file as its group lines join it, one after another.
#![tactic(auto)]

ghost use Rattle.std.specs.Prelude.{◌≡◌, ℕ, ◌+◌, ◌≤◌, ◌<◌, length, take, set};
ghost use Rattle.spec_orders.specs.CircularOrder.{Restriction};
ghost use Rattle.spec_orders.specs.Tree.{Forest};
ghost use Rattle.mark_words.specs.Marks.{words_of};
ghost use Rattle.spec_calls.specs.Book.{booked};
ghost use Rattle.tree_tokens.specs.Tokens.{Wrote, flat, TreeTokens};
ghost use Rattle.list_attempt.specs.Attempts.{Attempts};
ghost use Rattle.spec_listing.specs.Listing.{RingState, opened, outcome, next};
ghost use Rattle.list_ring.specs.Stands.{Stands, SameTables, Line, StandsAt, Tables};

mod lent;

use file_read::RingFile;
pub use lent::Ring;
use spec_calls::Refusal;

impl<'a> Ring<'a> {
    // The ring after the first `upto` group lines of the file, in these tables.
    pub fn replay(
        file: RingFile,
        upto: usize,
        toks: &'a mut [u16],
        book: &'a mut [u64],
        table: &'a mut [usize],
    ) -> Ring<'a>
        requires { (upto ≤ file.lines) × (Tables toks.old book.old table.old) }
        ensures stands { StandsAt file.entry.holds upto result }
        ensures same_tables { (result.toks.ghost_name ≡ toks.entry.ghost_name) × (result.book.ghost_name ≡ book.entry.ghost_name)
            × (result.table.ghost_name ≡ table.entry.ghost_name) }
    {
        let mut ring = Ring::fresh(file.names, toks, book, table);
        for l in 0..upto {
            ring.join_line(file, l);
        }
        ring
    }

    // The ring of n leaves with no group.
    fn fresh(n: usize, toks: &'a mut [u16], book: &'a mut [u64], table: &'a mut [usize]) -> Ring<'a>
        requires { (n ≤ 256) × (Tables toks.old book.old table.old) }
        ensures stands { Stands n (opened n) result }
        ensures same_tables { (result.toks.ghost_name ≡ toks.entry.ghost_name) × (result.book.ghost_name ≡ book.entry.ghost_name)
            × (result.table.ghost_name ≡ table.entry.ghost_name) }
    {
        let tokens = tree_tokens::fresh(n, toks);
        Ring {
            toks,
            tokens,
            book,
            table,
            count: 0,
        }
    }

    // Joins group line l, from 0, of the file to the ring.
    fn join_line(&mut self, file: RingFile, l: usize)
        requires { (l < file.lines) × (StandsAt file.holds l self.old) }
        ensures stands { StandsAt file.entry.holds (l + 1) self.new }
        ensures same_tables { SameTables self.old self.new }
    {
        let mut list = [0; 256];
        let k = file.group(l, &mut list);
        self.advance(file.names, l + 1, &list[..k]);
    }

    // Joins the group line with this number and these leaves to the ring of n leaves.
    pub fn advance(&mut self, n: usize, line: usize, list: &[u16])
        requires { (s : RingState) × (Stands n s self.old) × (Line n list.now) }
        ensures stands { (s : RingState) → Stands n s self.old
            → Stands n (next s line list.now (outcome n s list.now)) self.new }
        ensures same_tables { SameTables self.old self.new }
    {
        let mut marks = [0; 4];
        let mut tree = [0; 512];
        if let Ok(k) = self.attempt(n, list, &mut marks, &mut tree) {
            self.keep(line, &tree[..k], &marks);
        }
    }

    // Tries to join the group with these leaves. Writes its four words to marks, and the tree with the group to the start of out. Returns how many
    // tokens it has.
    fn attempt(
        &self,
        n: usize,
        list: &[u16],
        marks: &mut [u64],
        out: &mut [u16],
    ) -> Result<usize, Refusal>
        requires { (TreeTokens n (take self.now.tokens self.now.toks.now)) × (self.now.tokens ≤ length self.now.toks.now)
            × (length marks.old ≡ 4) × (512 ≤ length out.old) }
        ensures { (t : Forest) → take self.now.tokens self.now.toks.now ≡ flat t
            → Attempts t n self.now.count list.now marks.new out.old out.new result }
    {
        list_attempt::attempt(&self.toks[..self.tokens], n, self.count, list, marks, out)
    }

    // The ring has this tree, and one group more, with these four words, of this input line.
    fn keep(&mut self, line: usize, tree: &[u16], marks: &[u64])
        requires { (self.old.count < 96) × (length tree.now ≤ 512) × (length marks.now ≡ 4) }
        ensures toks { Wrote tree.now self.old.toks.now self.new.toks.now self.new.tokens }
        ensures book { (G : Restriction) → marks.now ≡ words_of 4 G → self.new.book.now ≡ booked self.old.book.now self.old.count G }
        ensures table { self.new.table.now ≡ set self.old.table.now self.old.count line }
        ensures count { self.new.count ≡ self.old.count + 1 }
        ensures same_tables { SameTables self.old self.new }
    {
        self.tokens = tree_tokens::copy(tree, self.toks);
        table_book::put(self.book, self.count, marks);
        self.table[self.count] = line;
        self.count += 1;
    }
}
