//! A sequence of elements in blocks, under the contract of the plain one.
//!
//! What each element is, `tp_elements` keeps by number. The order of the text is that of blocks, each of which lists
//! the numbers of up to 128 elements, and keeps how many of these nobody deleted. So an insert moves no element, and a
//! read by position adds up the counts and looks into one block.
#![tactic(auto)]

mod block;
mod block_info;
mod blocks;
mod counts;
mod numbers;
mod sequence;
mod spots;

pub use block_info::BlockInfo;
pub use sequence::BlockSequence;
