// The lines of a judged sequence: items with all empty leaves before all full ones, or under `back` the other way round.
#![tactic(auto)]

ghost use Rattle.std.specs.Prelude.{◌≡◌, true, reverse, ◌<◌, ◌≤◌, length};
ghost use Rattle.tree_tokens.specs.Tokens.{Judged, encode, Tokens, Wrote, flat};
ghost use Rattle.tree_tokens.specs.Views.{items_of};
ghost use Rattle.tree_judge.specs.Total.{totals};
ghost use Rattle.tree_pieces.specs.Writers.{Fits, first_in_line, all_in_line, near, far, p_in_line, c_in_line};

use tree_pieces::{find_partial, pack_state, rises};
use tree_tokens::ItemShape;

// The number of the state that comes first in a line: 0, or under `back` 1.
fn near(back: bool) -> u16
    ensures { result ≡ near back }
{
    u16::from(back)
}

// The number of the state that comes last.
fn far(back: bool) -> u16
    ensures { result ≡ far back }
{
    u16::from(!back)
}

// Writes what takes the first item's place in a line.
#[cycle(line_line_c_line_p_lines_lines_back)]
pub fn line(x: &[u16], back: bool, out: &mut [u16]) -> usize
    requires { (Fits (first_in_line back) x.now out.old) × (length x.now ≤ 512) }
    ensures { (j : Judged) → x.now ≡ encode j
        → Wrote (flat (first_in_line back (totals j))) out.old out.new result }
{
    if x.len() == 0 {
        return 0;
    }
    let shape = tree_tokens::shape(x);
    if let ItemShape::Leaf = shape {
        out[0] = x[0] - x[0] % 8;
        return 1;
    }
    if tree_tokens::state(x) != 2 {
        return tree_tokens::strip(tree_tokens::first(x), out);
    }
    match shape {
        ItemShape::CNode => line_c(tree_tokens::items(x), back, out),
        _ => line_p(tree_tokens::items(x), back, out),
    }
}

// The same of a C-node, from its items: as they stand, or from the last to the first.
#[cycle(line_line_c_line_p_lines_lines_back)]
fn line_c(x: &[u16], back: bool, out: &mut [u16]) -> usize
    requires { (Fits (c_in_line back) x.now out.old) × (length x.now ≤ 512) }
    ensures { (j : Judged) → x.now ≡ encode j
        → Wrote (flat (c_in_line back (totals j))) out.old out.new result }
{
    if rises(x) == back {
        return lines_back(x, back, out);
    }
    lines(x, back, out)
}

// The same of a P-node, from its items: one sort, the partial item, the other sort.
#[cycle(line_line_c_line_p_lines_lines_back)]
fn line_p(x: &[u16], back: bool, out: &mut [u16]) -> usize
    requires { (Fits (p_in_line back) x.now out.old) × (length x.now ≤ 512) }
    ensures { (j : Judged) → x.now ≡ encode j
        → Wrote (flat (p_in_line back (totals j))) out.old out.new result }
{
    let i = pack_state(x, near(back), out);
    let j = i + line(find_partial(x), back, &mut out[i..]);
    j + pack_state(x, far(back), &mut out[j..])
}

// Writes the lines of all items, from the first to the last.
#[cycle(line_line_c_line_p_lines_lines_back)]
pub fn lines(x: &[u16], back: bool, out: &mut [u16]) -> usize
    requires { (Fits (all_in_line back) x.now out.old) × (length x.now ≤ 512) }
    ensures { (j : Judged) → x.now ≡ encode j
        → Wrote (flat (all_in_line back (totals j))) out.old out.new result }
{
    let i = tree_spans::until(x, 2);
    let k = tree_tokens::strip(&x[0..i], out);
    if i == x.len() {
        return k;
    }
    let y = &x[i..];
    let m = k + line(y, back, &mut out[k..]);
    m + lines(tree_tokens::rest(y), back, &mut out[m..])
}

// Whether the first item is a C-node in whose place its items' lines come from the last to the first.
fn turns(x: &[u16], back: bool) -> bool
    requires { (Tokens x.now) × (0 < length x.now) }
    ensures { (j : Judged) → x.now ≡ encode j → result ≡ true
        → first_in_line back (totals j) ≡ all_in_line back (reverse (totals (items_of j))) }
{
    if tree_tokens::state(x) != 2 {
        return false;
    }
    let ItemShape::CNode = tree_tokens::shape(x) else {
        return false;
    };
    rises(tree_tokens::items(x)) == back
}

// Writes the lines of all items, from the last to the first: those of the others, then that of the first one; where it turns, its items are left.
// Going down is no iterator's step: each time both ends of what is left change.
#[cycle(line_line_c_line_p_lines_lines_back)]
fn lines_back(x: &[u16], back: bool, out: &mut [u16]) -> usize
    requires { (Fits (λ ts. all_in_line back (reverse ts)) x.now out.old) × (length x.now ≤ 512) }
    ensures { (j : Judged) → x.now ≡ encode j
        → Wrote (flat (all_in_line back (reverse (totals j)))) out.old out.new result }
{
    let mut k = 0;
    let mut i = 0;
    let mut end = x.len();
    while i < end {
        let y = &x[i..end];
        k += lines_back(tree_tokens::rest(y), back, &mut out[k..]);
        if !turns(y, back) {
            return k + line(y, back, &mut out[k..]);
        }
        end = i + tree_tokens::size(y);
        i += 1;
    }
    k
}
