// The items and nodes of a tree text, read into tokens.
#![tactic(auto)]

ghost use Rattle.std.specs.Prelude.{◌+◌, ◌-◌, ◌*◌, ◌≤◌, ◌<◌, length};
ghost use Rattle.text_leaf.specs.Passages.{Marks, ItemRead, ItemsRead, OpenedRead};

use text_leaf::Reached;

// The parameters stay single ones: a struct of the numbers would be made anew at three of the four calls, and `out` is lent on in parts.

// Reads the item at byte `at` and writes its tokens; or answers the byte of the refusal. Its node wants `few` items, it among them, and the nodes
// round that want `want` leaves.
#[cycle(item_items_opened)]
fn item(
    text: &[u8],
    at: usize,
    few: usize,
    want: usize,
    many: usize,
    used: &mut [u8],
    out: &mut [u16],
) -> Result<Reached, usize>
    requires { (at ≤ length text.now) × (Marks many used.old) × (many ≤ 255) × (few - 1 + want < many)
        × (2 * many ≤ length out.old + 1 + (few - 1) + 2 * want) }
    ensures { ItemRead text.now at few want many used.old used.new out.old out.new result }
{
    let Some(&b) = text.get(at) else {
        return Err(at);
    };
    let Some(kind) = text_leaf::node_kind(b) else {
        return text_leaf::leaf(text, at, many, used, out);
    };
    let inner = few.saturating_sub(1) + want;
    if many < 2 + inner {
        return Err(at);
    }
    let within = opened(text, at + 1, inner, many, used, &mut out[1..])?;
    out[0] = text_leaf::header(kind, within.count);
    Ok(Reached {
        at: within.at + 1,
        left: within.left,
        count: 1 + within.count,
    })
}

// Reads a node from the bracket at byte `at` on, up to the closing bracket, and writes the tokens of its items; or answers the byte of the refusal.
// The nodes round it want `want` leaves.
#[cycle(item_items_opened)]
pub fn opened(
    text: &[u8],
    at: usize,
    want: usize,
    many: usize,
    used: &mut [u8],
    out: &mut [u16],
) -> Result<Reached, usize>
    requires { (at ≤ length text.now) × (Marks many used.old) × (many ≤ 255) × (2 + want ≤ many)
        × (2 * many ≤ length out.old + 2 + 2 * want) }
    ensures { OpenedRead text.now at want many used.old used.new out.old out.new result }
{
    if at >= text.len() || text[at] != b'(' {
        return Err(at);
    }
    items(text, at + 1, 2, want, many, used, out)
}

// Reads the items at byte `at` on, up to the closing bracket of their node, and writes their tokens; or answers the byte of the refusal. The node wants
// `few` of them, and the nodes round it want `want` leaves.
#[cycle(item_items_opened)]
fn items(
    text: &[u8],
    at: usize,
    few: usize,
    want: usize,
    many: usize,
    used: &mut [u8],
    out: &mut [u16],
) -> Result<Reached, usize>
    requires { (at ≤ length text.now) × (Marks many used.old) × (many ≤ 255) × (few - 1 + want < many)
        × (2 * many ≤ length out.old + 1 + (few - 1) + 2 * want) }
    ensures { ItemsRead text.now at few want many used.old used.new out.old out.new result }
{
    let first = item(text, at, few, want, many, used, out)?;
    let to = first.at;
    let few = few.saturating_sub(1);
    let Some(&b) = text.get(to) else {
        return Err(to);
    };
    match b {
        b' ' if few.saturating_sub(1) + want < first.left => {
            let count = first.count;
            let others = items(text, to + 1, few, want, first.left, used, &mut out[count..])?;
            Ok(Reached {
                at: others.at,
                left: others.left,
                count: count + others.count,
            })
        }
        b')' if few == 0 => Ok(first),
        _ => Err(to),
    }
}
