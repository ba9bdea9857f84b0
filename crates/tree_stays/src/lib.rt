// Where an update changes nothing: read off the states, without writing the new tree.
#![tactic(auto)]

ghost use Rattle.std.specs.Prelude.{◌≡◌, ◌<◌, length};
ghost use Rattle.tree_tokens.specs.Tokens.{Judged, encode, Tokens};
ghost use Rattle.tree_stays.specs.Stays.{stays};

use tree_tokens::ItemShape;

// Whether the states say that the first item, reduced, is as it was. Goes down as long as one item alone is not empty:
// no iterator's step, since each time both ends of what is left change.
pub fn stays(x: &[u16]) -> bool
    requires { (Tokens x.now) × (0 < length x.now) }
    ensures { (j : Judged) → x.now ≡ encode j → result ≡ stays j }
{
    let mut i = 0;
    let mut end = x.len();
    while i < end {
        let y = &x[i..end];
        if tree_tokens::state(y) < 2 {
            return true;
        }
        end = i + tree_tokens::size(y);
        i += 1;
        let z = &x[i..end];
        let k = tree_spans::span(z, 0);
        if k == z.len() {
            return false;
        }
        i += k;
        let others = &x[i..end];
        if !tree_pieces::all_of_state(tree_tokens::rest(others), 0) {
            let ItemShape::CNode = tree_tokens::shape(y) else {
                return false;
            };
            return tree_pieces::find_partial(others).len() == 0;
        }
    }
    true
}
