// The P and C rules of a tree text, on its tokens: the least byte at which one is broken.
#![tactic(auto)]

ghost use Rattle.std.specs.Prelude.{◌≡◌, ◌&&◌, ◌+◌, ◌*◌, ◌≤◌, ◌<◌, ltb, length};
ghost use Rattle.std.specs.Bool.{then_some};
ghost use Rattle.spec_orders.specs.Tree.{Kind, C};
ghost use Rattle.spec_orders.specs.TreeText.{digits};
ghost use Rattle.tree_tokens.specs.Tokens.{Judged, tree, encode, Tokens};
ghost use Rattle.tree_tokens.specs.Views.{first_of};
ghost use Rattle.text_scanner.specs.Rule.{is_p, broken_at};
ghost use Rattle.text_rules.specs.Seen.{found_byte, Saw};

use tree_tokens::ItemShape;

// What is seen of a sequence of items: the first leaf of its first and of its last item, the byte at which its text ends, and the least byte at
// which it breaks a rule, if it breaks one.
#[derive(Clone, Copy)]
pub struct Seen {
    pub first: u16,
    pub last: u16,
    pub end: usize,
    pub broken: Option<usize>,
}

// How many digits b has.
#[tactic(auto, using(crate::proofs::Digits::one_digit, crate::proofs::Digits::more_digits))]
fn digit_count(b: u16) -> usize
    ensures { (result ≤ 5) × (result ≡ length (digits b)) }
{
    match b {
        0..=9 => 1,
        10..=99 => 2,
        100..=999 => 3,
        1000..=9999 => 4,
        _ => 5,
    }
}

// Byte o, where the rule asks that b is not below m, and it is.
fn broken_here(rule: bool, b: u16, m: u16, o: usize) -> Option<usize>
    ensures { result ≡ then_some (rule && ltb b m) o }
{
    (rule && b < m).then_some(o)
}

// What is seen of the first item alone, whose text starts at byte o.
#[cycle(see_item_see_items)]
fn see_item(toks: &[u16], o: usize) -> Seen
    requires { (Tokens toks.now) × (0 < length toks.now) × (0 < o) × (o + 6 * length toks.now ≤ 10000) }
    ensures { (j : Judged) → toks.now ≡ encode j
        → (result.end < o + 6 * length (encode (first_of j))) × Saw C o (tree (first_of j)) result }
{
    let is_p = match tree_tokens::shape(toks) {
        ItemShape::Leaf => {
            let b = tree_tokens::leaf(toks);
            return Seen {
                first: b,
                last: b,
                end: o + digit_count(b),
                broken: None,
            };
        }
        ItemShape::PNode => true,
        ItemShape::CNode => false,
    };
    let r = see_items(tree_tokens::items(toks), is_p, o + 2);
    Seen {
        first: r.first,
        last: r.first,
        end: r.end + 1,
        broken: broken_here(!is_p, r.last, r.first, o + 2).or(r.broken),
    }
}

// What is seen of the items of a node, a P-node if `rising`. Their text starts at byte o. By index: the first item starts what the others go on
// with.
#[cycle(see_item_see_items)]
fn see_items(toks: &[u16], rising: bool, o: usize) -> Seen
    requires { (Tokens toks.now) × (0 < o) × (o + 6 * length toks.now ≤ 10000) }
    ensures { (result.end ≤ o + 6 * length toks.now)
        × ((j : Judged) (k : Kind) → toks.now ≡ encode j → rising ≡ is_p k → Saw k o (tree j) result) }
{
    if toks.is_empty() {
        return Seen {
            first: 0,
            last: 0,
            end: o,
            broken: None,
        };
    }
    let mut seen = see_item(toks, o);
    let mut i = tree_tokens::size(toks);
    while i < toks.len() {
        let y = &toks[i..];
        let at = seen.end + 1;
        let t = see_item(y, at);
        let falls = broken_here(rising, t.first, seen.last, at);
        seen.broken = seen.broken.or(falls).or(t.broken);
        seen.last = t.first;
        seen.end = t.end;
        i += tree_tokens::size(y);
    }
    seen
}

// The least byte at which what hangs at leaf 1 breaks a rule, if it breaks one. Its text starts at byte 2.
pub fn broken(toks: &[u16]) -> Option<usize>
    requires { (Tokens toks.now) × (length toks.now ≤ 512) }
    ensures { (j : Judged) → toks.now ≡ encode j → result ≡ found_byte (broken_at C 0 2 (tree j)) }
{
    see_items(toks, false, 2).broken
}
