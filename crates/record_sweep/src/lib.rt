// The sweep of a node table of records, which are only read.
#![tactic(auto)]

ghost use Rattle.std.specs.Prelude.{◌≡◌, length};
ghost use Rattle.spec_orders.specs.CircularOrder.{Restriction};
ghost use Rattle.record_copy.specs.Rows.{node_rows};
ghost use Rattle.table_sweep.specs.Kept.{Started, Swept};

use record_copy::Node;

// Reads the records, at most the first 256, from the last to the first; work is ready. That their rows have 65,792 numbers is for check 2.
pub fn sweep(nodes: &[Node], n: usize, work: &mut [u64])
    requires { length work.old ≡ 265 }
    ensures { (length (node_rows nodes.now) ≡ 65792)
        × ((S : Restriction) → Started n S work.old → Swept n S (node_rows nodes.now) 0 work.new) }
{
    for r in (0..record_copy::cap(nodes.len())).rev() {
        let node = &nodes[r];
        table_sweep::record(r, u16::from(node.kind), node.count, &node.items, n, work);
    }
}
