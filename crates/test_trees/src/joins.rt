// One line of joins.txt: n, a tree text, a group and the tree text after joining, or 8, with tabs between them.
ghost use Rattle.std.specs.Prelude.{◌≤◌};

use spec_calls::Refusal;
use spec_orders::Layout;

// 1 where the answer is the tree of the file, 2 where it is impossible and the file has 8, 3 where it is another or there is no tab behind the
// group.
pub fn outcome(n: usize, tree: &[u8], rest: &[u8]) -> usize
    ensures { result ≤ 3 }
{
    let c = test_fields::find(rest, 0, b'\t');
    if c >= rest.len() {
        return 3;
    }
    run(n, tree, &rest[0..c], &rest[c + 1..])
}

// Joins the group to the tree of the tables.
fn join(n: usize, nodes: &mut [u16], book: &mut [u64], group: &[u8]) -> Result<usize, Refusal> {
    let mut list = [0u16; 256];
    let k = test_fields::group(group, &mut list);
    call_update::join(Layout::Ring, n, nodes, 256, book, 0, &list[0..k])
}

// Reads the tree, joins the group, and compares the new tree's text with the file's.
fn run(n: usize, tree: &[u8], group: &[u8], want: &[u8]) -> usize
    ensures { result ≤ 3 }
{
    let mut nodes = [0u16; 65792];
    let mut book = [0u64; 384];
    let Ok(_) = call_text::read(Layout::Ring, n, &mut nodes, 256, &mut book, tree) else {
        return 3;
    };
    let joined = join(n, &mut nodes, &mut book, group);
    compared(n, joined, &nodes, want)
}

// 1, 2 or 3, of the answer and the node table after it.
fn compared(n: usize, joined: Result<usize, Refusal>, nodes: &[u16], want: &[u8]) -> usize
    ensures { result ≤ 3 }
{
    match joined {
        Ok(_) if test_tables::is_text(Layout::Ring, n, nodes, want) => 1,
        Err(why) if why.number() == 8 && want.len() == 1 => 2,
        _ => 3,
    }
}
