// The two tables of a lent store, searched slot by slot, or by halves where the packet records are in order. What that
// means is in the definitions of slots.
#![tactic(auto)]

pub mod halves; // a packet record by its key, where the records are in order
pub mod key; // what a packet record is found by
pub mod ordering; // which ordering a channel has, and which receipts
pub mod scan; // the first slot that passes a test
