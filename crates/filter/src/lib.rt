// Bloom filters of an index: that of a page, and blocks of them out of groups whose bits lie in the same rows. Document 01, "Filters".
#![tactic(auto)]

pub mod groups;
pub mod page;

pub use groups::{Block, Filters, block_below};
pub use page::{new_filter, number_filters};
