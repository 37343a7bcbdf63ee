// A Merkle tree that grows, and answers roots, inclusion proofs and consistency proofs from kept digests of whole subtrees.
#![tactic(auto)]

mod error;
mod fill;
mod rows;
mod step;
mod subtree;
mod tree;
mod walk;

pub use error::TreeError;
pub use tree::Tree;
