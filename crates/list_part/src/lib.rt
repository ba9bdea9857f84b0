// The listing of a ring file, printed line by line to lent bytes.
#![tactic(auto)]

ghost use Rattle.std.specs.Prelude.{◌≡◌, [], ◌∷◌, ◌-◌, ◌≤◌};
ghost use Rattle.tree_tokens.specs.Tokens.{flat};
ghost use Rattle.list_ring.specs.Stands.{lists_of};
ghost use Rattle.spec_listing.specs.Listing.{listing, error_line};
ghost use Rattle.list_part.specs.Parts.{Listed, Parts};
ghost use Rattle.list_line.specs.Printing.{final, Before};

use file_read::RingFile;
use list_bytes::put;
use list_line::Listing;
use list_ring::Ring;

// What `part` printed: so many bytes were written; the next part begins with the printed line with this number.
#[derive(Drop)]
pub struct Piece {
    pub bytes: usize,
    pub next: usize,
}

// Prints a part of the file's listing, from the line with number `from` (0 is the first) on, each line with its line end: lines are printed while
// 4,096 bytes are left. Past the last line it prints nothing. Returns how many bytes it wrote, and the number of the next line.
pub fn part(file: &[u8], from: usize, out: &mut [u8]) -> Piece
    ensures { Listed file.now from out.old out.new result }
{
    match RingFile::open(file) {
        Ok(found) => print_listing(found, from, out),
        Err(why) => print_error(why.place(), from, out),
    }
}

// Prints the part of a refused file's listing, its error line alone, from line `from` on.
fn print_error(byte: usize, from: usize, out: &mut [u8]) -> Piece
    ensures { Parts (error_line byte ∷ []) from out.old out.new result }
{
    if from > 0 || out.len() < 4096 {
        return Piece {
            bytes: 0,
            next: from,
        };
    }
    let a = put(b"error 11 at byte ", out, 0);
    let b = list_bytes::put_number(byte, out, a);
    Piece {
        bytes: put(b"\n", out, b),
        next: 1,
    }
}

// Prints the part of an accepted file's listing from line `from` on.
fn print_listing(file: RingFile, from: usize, out: &mut [u8]) -> Piece
    ensures { Parts (listing file.entry.holds.ns (lists_of file.entry.holds)) from out.old out.new result }
{
    let (mut toks, mut book, mut table) = ([0; 512], [0; 384], [0; 96]);
    let Ring { toks, tokens, .. } = Ring::replay(
        file, file.lines, &mut toks, &mut book, &mut table,
    );
    print_tree(file, &toks[..tokens], from, out)
}

// The same, given the tree, in tokens, of the file's ring after all lines.
fn print_tree(file: RingFile, tree: &[u16], from: usize, out: &mut [u8]) -> Piece
    requires { tree.now ≡ flat (final file.holds.ns (lists_of file.holds)) }
    ensures { Parts (listing file.entry.holds.ns (lists_of file.entry.holds)) from out.old out.new result }
{
    let mut order = [0; 256];
    let n = tree_order::standard_order(tree, &mut order);
    let whole = Listing {
        file,
        tree,
        order: &order[..n],
    };
    print_from(&whole, from, out)
}

// Prints the part of the listing from line `from` on.
fn print_from(whole: &Listing, from: usize, out: &mut [u8]) -> Piece
    ensures { Parts (listing whole.now.file.holds.ns (lists_of whole.now.file.holds)) from out.old out.new result }
{
    let (mut toks, mut book, mut table) = ([0; 512], [0; 384], [0; 96]);
    let before = lines_before(from, whole.file.lines);
    let mut ring = Ring::replay(whole.file, before, &mut toks, &mut book, &mut table);
    print_lines(whole, from, &mut ring, out)
}

// How many group lines come before printed line i, which is the first line or that of a group. None where i is past them: no line from i on needs
// the ring.
fn lines_before(i: usize, lines: usize) -> usize
    ensures { (result ≤ lines) × (i ≤ lines → result ≡ i - 1) }
{
    if i <= lines { i.saturating_sub(1) } else { 0 }
}

// Prints lines of the listing, each with its line end, from the one with number `from` on, while 4,096 bytes are left for a line. The ring is the
// one before that line.
fn print_lines(whole: &Listing, from: usize, ring: &mut Ring, out: &mut [u8]) -> Piece
    requires { Before whole.now.file.holds from ring.old }
    ensures { Parts (listing whole.now.file.holds.ns (lists_of whole.now.file.holds)) from out.old out.new result }
{
    let end = whole.file.lines + 5;
    let mut at = 0;
    for i in from..end {
        if out.len() - at < 4096 {
            return Piece { bytes: at, next: i };
        }
        let line = whole.print_line(i, ring, out, at);
        at = put(b"\n", out, line);
    }
    Piece {
        bytes: at,
        next: from.max(end),
    }
}
