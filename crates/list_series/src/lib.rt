// Names with spaces between and line numbers with commas between, appended to lent bytes.
#![tactic(auto)]

ghost use Rattle.std.specs.Prelude.{◌+◌, ◌*◌, ◌≤◌, length};
ghost use Rattle.spec_orders.specs.Lists.{All};
ghost use Rattle.list_bytes.specs.Appends.{Appends};
ghost use Rattle.spec_listing.specs.Listing.{spaced_names, commas};

use file_read::RingFile;
use list_bytes::{put, put_number};

// Appends the input lines of the groups with these numbers, with commas between. `table` has the input line of each group.
pub fn put_conflicts(numbers: &[u16], table: &[usize], out: &mut [u8], mut at: usize) -> usize
    requires { (All (λ j. (1 ≤ j) × (j ≤ length table.now)) numbers.now) × (at + 21 * length numbers.now ≤ length out.old) }
    ensures { (result ≤ at + 21 * length numbers.now)
        × (Appends (commas table.now numbers.now) at out.old out.new result) }
{
    for (i, number) in numbers.iter().enumerate() {
        if i != 0 {
            at = put(b",", out, at);
        }
        at = put_number(table[*number as usize - 1], out, at);
    }
    at
}

// Appends the names of the leaves, with spaces between.
pub fn put_names(file: RingFile, order: &[u16], out: &mut [u8], mut at: usize) -> usize
    requires { (All (λ b. (1 ≤ b) × (b ≤ file.names)) order.now) × (at + 9 * length order.now ≤ length out.old) }
    ensures { (result ≤ at + 9 * length order.now)
        × (Appends (spaced_names file.entry.holds.ns order.now) at out.old out.new result) }
{
    for (i, leaf) in order.iter().enumerate() {
        if i != 0 {
            at = put(b" ", out, at);
        }
        at = put(file.name(*leaf as usize), out, at);
    }
    at
}
