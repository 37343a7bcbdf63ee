// The Merkle tree's definition, and what is proved of it: each function's contract names one theorem.
#![tactic(auto)]

ghost use Rattle.merkle_theory.specs.Bytes.{Bytes};
ghost use Rattle.merkle_theory.specs.Carried.{Carries, Homomorphism};
ghost use Rattle.merkle_theory.specs.Cases.{CasesHold};
ghost use Rattle.merkle_theory.specs.Claims.{ConsistencyThere, PathThere, Short};
ghost use Rattle.merkle_theory.specs.Digests.{Agree, DigestConsistency, DigestPath, DigestRoot, RowConsistency, RowPath, RowRoot};
ghost use Rattle.merkle_theory.specs.Follow.{FollowLaws};
ghost use Rattle.merkle_theory.specs.Laws.{ConsistencyLaws, PathLaws, RootLaws, SplitLaws};
ghost use Rattle.merkle_theory.specs.Terms.{ConsistencyExact, PathExact, RootSays, eval, over_terms};
ghost use Rattle.merkle_theory.specs.Texts.{FollowTextLaws, TextLaws, Texts};
ghost use Rattle.merkle_theory.specs.Tree.{Hashing};

// The split is the one power of two below a length whose double is not below it.
pub fn split_is_the_power_of_two()
    ensures { SplitLaws }
{}

// A root is that of an entry, or of a node over the roots of both sides.
pub fn root_is_over_both_sides<A, D>()
    ensures { (H : Hashing A D) → RootLaws H }
{}

// A path has the roots of the sides beside its place.
pub fn path_has_the_sides_beside<A, D>()
    ensures { (H : Hashing A D) → PathLaws H }
{}

// A consistency proof has the roots of the sides beside the earlier list's end.
pub fn consistency_has_the_sides_beside<A, D>()
    ensures { (H : Hashing A D) → ConsistencyLaws H }
{}

// Following a proof leads just where the rules for it lead.
pub fn following_goes_by_rules<D>()
    ensures { (node : D → D → D) → FollowLaws node }
{}

// The path of each place leads from its entry to the root, however digests are made.
pub fn each_entry_has_a_path<A, D>()
    ensures { (H : Hashing A D) → PathThere H }
{}

// The consistency proof from each earlier list leads to both roots, however digests are made.
pub fn each_earlier_list_has_a_proof<A, D>()
    ensures { (H : Hashing A D) → ConsistencyThere H }
{}

// Of at most 2 ^ j entries, a path has at most j digests, and a consistency proof at most j + 1.
pub fn proofs_are_short<A, D>()
    ensures { (H : Hashing A D) → Short H }
{}

// A map of digests and entries that agrees with both ways to make digests carries roots and proofs over.
pub fn homomorphism_carries_the_tree<A, B, D, E>()
    ensures { (H : Hashing A D) (K : Hashing B E) (f : D → E) (g : A → B) → Homomorphism H K f g → Carries H K f g }
{}

// The texts that are hashed for a root are its own and those of both sides.
pub fn texts_are_those_of_the_roots<A, D, X>()
    ensures { (t : Texts A D X) → TextLaws t }
{}

// The texts that are hashed as a path is followed are its start's and one for each node on its way.
pub fn texts_are_those_of_the_way<A, D, X>()
    ensures { (t : Texts A D X) → FollowTextLaws t }
{}

// Over terms, two lists with one root are the same list.
pub fn root_says_the_list<A>()
    ensures { RootSays A }
{}

// Over terms, a path leads from an entry to the root exactly if it is the path of a place where the entry stands.
pub fn path_is_exact<A>()
    ensures { PathExact A }
{}

// Over terms, a consistency proof leads to both roots exactly if it is the proof for a list that begins with the earlier one.
pub fn consistency_is_exact<A>()
    ensures { ConsistencyExact A }
{}

// What holds of terms is carried over to digests of bytes.
pub fn terms_stand_for_digests<A>()
    ensures { (H : Hashing A Bytes) → Carries (over_terms A) H (eval H) (λ (x : A). x) }
{}

// Two lists of entries with one root are the same list, or two texts hashed for them collide.
pub fn root_tells_the_entries()
    ensures { DigestRoot }
{}

// A path that leads from an entry to a root is the path of a place where it stands, or two texts hashed for them collide.
pub fn path_tells_the_entry()
    ensures { DigestPath }
{}

// A consistency proof that leads to two roots is the proof for a list that begins with the earlier, or two texts hashed for them collide.
pub fn consistency_tells_the_beginning()
    ensures { DigestConsistency }
{}

// Two rows of leaf digests of one length with one root are the same row, or two texts hashed for them collide.
pub fn root_tells_the_row()
    ensures { RowRoot }
{}

// A path that leads from a leaf digest to a row's root is the path of a place where it stands, or two texts hashed for them collide.
pub fn path_tells_the_leaf()
    ensures { RowPath }
{}

// A consistency proof that leads to the roots of two rows is the proof for a row that begins with the earlier, or two texts hashed for them collide.
pub fn consistency_tells_the_row()
    ensures { RowConsistency }
{}

// A list of entries and the row of its leaf digests have the same root and the same proofs.
pub fn leaves_stand_for_entries()
    ensures { (hash : Bytes → Bytes) → Agree hash }
{}

// The worked cases, in a list of seven entries.
pub fn worked_cases_hold()
    ensures { CasesHold }
{}
