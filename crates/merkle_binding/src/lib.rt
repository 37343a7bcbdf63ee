// What is proved of the Merkle tree over any hash, said of the code's own digests, which are SHA-256's: each function's contract names one theorem.
#![tactic(auto)]

ghost use Rattle.merkle_binding.specs.Bytes.{BytesCarry, Sha256Long};
ghost use Rattle.merkle_binding.specs.Entries.{BytesAgree, ConsistencyTellsEntries, PathTellsEntry, RootTellsEntries, RowAgrees};
ghost use Rattle.merkle_binding.specs.Rows.{ConsistencyFromRow, ConsistencyTellsRow, PathFromLeaf, PathTellsLeaf, RootTellsRow};

// Every SHA-256 digest has 32 bytes, so what is proved of every such hash holds of SHA-256.
pub fn sha256_is_such_a_hash()
    ensures { Sha256Long }
{}

// The bytes of the code's roots and proofs are the roots and proofs over bytes.
pub fn digests_stand_for_bytes()
    ensures { BytesCarry }
{}

// The row of the leaf digests of a list of entries has the root and the proofs of the list.
pub fn row_has_the_roots_of_entries()
    ensures { RowAgrees }
{}

// Over bytes, a list of entries has the bytes of the root and of the proofs of its row.
pub fn entries_stand_for_bytes()
    ensures { BytesAgree }
{}

// The path of each place leads from its leaf digest to the row's root.
pub fn each_leaf_has_a_path()
    ensures { PathFromLeaf }
{}

// The consistency proof from each earlier row leads to both roots.
pub fn each_earlier_row_has_a_proof()
    ensures { ConsistencyFromRow }
{}

// Two lists of entries with one root are the same list, or two texts hashed for them collide.
pub fn root_tells_the_entries()
    ensures { RootTellsEntries }
{}

// A path that leads from an entry's leaf digest to the root is the path of a place where the entry stands, or two texts hashed for them collide.
pub fn path_tells_the_entry()
    ensures { PathTellsEntry }
{}

// A consistency proof that leads to the roots of two lists is the proof for a list that begins with the earlier, or two texts hashed for them collide.
pub fn consistency_tells_the_beginning()
    ensures { ConsistencyTellsEntries }
{}

// Two rows of leaf digests of one length with one root are the same row, or two texts hashed for them collide.
pub fn root_tells_the_row()
    ensures { RootTellsRow }
{}

// A path that leads from a leaf digest to a row's root is the path of a place where it stands, or two texts hashed for them collide.
pub fn path_tells_the_leaf()
    ensures { PathTellsLeaf }
{}

// A consistency proof that leads to the roots of two rows is the proof for a row that begins with the earlier, or two texts hashed for them collide.
pub fn consistency_tells_the_row()
    ensures { ConsistencyTellsRow }
{}
