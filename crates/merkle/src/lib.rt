// The Merkle tree of RFC 9162 with SHA-256: the digests of entries and of nodes, the root of a row of leaf digests, and the
// roots that inclusion and consistency proofs lead to.
#![tactic(auto)]

mod climb;
mod consistency;
mod digest;
mod hashing;
mod inclusion;
mod roots;
mod row;
mod split;
mod way;

pub use consistency::{consistency_leads, roots_from_consistency};
pub use digest::{Digest, equality_tells_digests_apart};
pub use hashing::{empty_root, leaf_digest, node_digest, node_digests};
pub use inclusion::{path_leads, root_from_path};
pub use roots::Roots;
pub use row::root_of;
pub use split::left_size;
