// The harbour, as far as a script can play it: the leaf digests of one log's entries.
use merkle_tree::Tree;

#[derive(Drop)]
pub struct Harbour {
    pub entries: Tree,
}
