// What a reader must believe of orders and trees is in specs/, and its theorems in proofs/. In code: the layouts.
#![tactic(auto)]

ghost use Rattle.std.specs.Prelude.{◌≡◌, ◌≤◌};
ghost use Rattle.spec_orders.specs.Layout.{leaf_count, layout_numbered};

// Whether a call is lent a ring or a rack, which has two ends.
#[derive(Clone, Copy, PartialEq, Eq)]
pub enum Layout {
    Ring,
    Rack,
}

impl Layout {
    // How many leaves the tree of n bins has: a rack's has one more, its hidden end bin. Above 256 bins, n.
    pub fn leaf_count(self, n: usize) -> usize
        ensures { n ≤ 256 → result ≡ leaf_count self n }
    {
        match self {
            Layout::Rack if n <= 256 => n + 1,
            _ => n,
        }
    }
}

// The layout that a number names, for C: 0 is a ring, any other number a rack.
impl From<u8> for Layout {
    ghost from_gives = { λ number layout. layout ≡ layout_numbered number };

    fn from(number: u8) -> Layout {
        match number {
            0 => Layout::Ring,
            _ => Layout::Rack,
        }
    }
}
