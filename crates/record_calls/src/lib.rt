// The calls on a ring or a rack as it is lent, a node table of records and a book, and on two trees; the test load; and the ring file, read. Each is handed on as it
// stands in the crate that is named, with its contract.
#![tactic(auto)]

pub use call_conflict::conflict;
pub use call_load::test_load;
pub use file_read::{group_of, name_at, name_of, scan, value_of};
pub use record_intersection::intersect;
pub use record_order::{aim, order};
pub use record_text::{read, write};
pub use record_trial::trial;
pub use record_update::{join, open};
