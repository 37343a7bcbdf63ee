// The certificate transparency test data for Merkle trees: eight entries, the roots of the first 1 to 8, and some paths and
// consistency proofs, here with the digest nearest to the root first.
use crate::tally::Tally;
use merkle::{Digest, consistency_leads, leaf_digest, path_leads, root_of};
use merkle_tree::Tree;
use script::from_hex;

const ENTRIES: [&'static [u8]; 8] = [
    b"",
    b"\x00",
    b"\x10",
    b"\x20\x21",
    b"\x30\x31",
    b"\x40\x41\x42\x43",
    b"\x50\x51\x52\x53\x54\x55\x56\x57",
    b"\x60\x61\x62\x63\x64\x65\x66\x67\x68\x69\x6a\x6b\x6c\x6d\x6e\x6f",
];

// The root of the first so many entries.
const ROOTS: [&'static str; 9] = [
    "e3b0c44298fc1c149afbf4c8996fb92427ae41e4649b934ca495991b7852b855",
    "6e340b9cffb37a989ca544e6bb780a2c78901d3fb33738768511a30617afa01d",
    "fac54203e7cc696cf0dfcb42c92a1d9dbaf70ad9e621f4bd8d98662f00e3c125",
    "aeb6bcfe274b70a14fb067a5e5578264db0fa9b51af5e0ba159158f329e06e77",
    "d37ee418976dd95753c1c73862b9398fa2a2cf9b4ff0fdfe8b30cd95209614b7",
    "4e3bbb1f7b478dcfe71fb631631519a3bca12c9aefca1612bfce4c13a86264d4",
    "76e67dadbcdf1e10e1b74ddc608abd2f98dfb16fbce75277b5232a127f2087ef",
    "ddb89be403809e325750d3d263cd78929c2942b7942a34b77e122c9594a74c8c",
    "5dc9da79a70659a9ad559cb701ded9a2ab9d823aad2f4960cfe370eff4604328",
];

// A published proof: of a place among so many entries, or from one count to another.
struct Proof {
    name: &'static str,
    first: u64,
    count: u64,
    digests: &'static [&'static str],
}

const PATHS: [Proof; 5] = [
    Proof {
        name: "path of place 0 of 1",
        first: 0,
        count: 1,
        digests: &[],
    },
    Proof {
        name: "path of place 0 of 8",
        first: 0,
        count: 8,
        digests: &[
            "6b47aaf29ee3c2af9af889bc1fb9254dabd31177f16232dd6aab035ca39bf6e4",
            "5f083f0a1a33ca076a95279832580db3e0ef4584bdff1f54c8a360f50de3031e",
            "96a296d224f285c67bee93c30f8a309157f0daa35dc5b87e410b78630a09cfc7",
        ],
    },
    Proof {
        name: "path of place 5 of 8",
        first: 5,
        count: 8,
        digests: &[
            "d37ee418976dd95753c1c73862b9398fa2a2cf9b4ff0fdfe8b30cd95209614b7",
            "ca854ea128ed050b41b35ffc1b87b8eb2bde461e9e3b5596ece6b9d5975a0ae0",
            "bc1a0643b12e4d2d7c77918f44e0f4f79a838b6cf9ec5b5c283e1f4d88599e6b",
        ],
    },
    Proof {
        name: "path of place 2 of 3",
        first: 2,
        count: 3,
        digests: &["fac54203e7cc696cf0dfcb42c92a1d9dbaf70ad9e621f4bd8d98662f00e3c125"],
    },
    Proof {
        name: "path of place 1 of 5",
        first: 1,
        count: 5,
        digests: &[
            "bc1a0643b12e4d2d7c77918f44e0f4f79a838b6cf9ec5b5c283e1f4d88599e6b",
            "5f083f0a1a33ca076a95279832580db3e0ef4584bdff1f54c8a360f50de3031e",
            "6e340b9cffb37a989ca544e6bb780a2c78901d3fb33738768511a30617afa01d",
        ],
    },
];

const CONSISTENCY_PROOFS: [Proof; 4] = [
    Proof {
        name: "consistency from 1 to 1",
        first: 1,
        count: 1,
        digests: &[],
    },
    Proof {
        name: "consistency from 1 to 8",
        first: 1,
        count: 8,
        digests: &[
            "6b47aaf29ee3c2af9af889bc1fb9254dabd31177f16232dd6aab035ca39bf6e4",
            "5f083f0a1a33ca076a95279832580db3e0ef4584bdff1f54c8a360f50de3031e",
            "96a296d224f285c67bee93c30f8a309157f0daa35dc5b87e410b78630a09cfc7",
        ],
    },
    Proof {
        name: "consistency from 6 to 8",
        first: 6,
        count: 8,
        digests: &[
            "d37ee418976dd95753c1c73862b9398fa2a2cf9b4ff0fdfe8b30cd95209614b7",
            "ca854ea128ed050b41b35ffc1b87b8eb2bde461e9e3b5596ece6b9d5975a0ae0",
            "0ebc5d3437fbe2db158b9f126a1d118e308181031d0a949f8dededebc558ef6a",
        ],
    },
    Proof {
        name: "consistency from 2 to 5",
        first: 2,
        count: 5,
        digests: &[
            "bc1a0643b12e4d2d7c77918f44e0f4f79a838b6cf9ec5b5c283e1f4d88599e6b",
            "5f083f0a1a33ca076a95279832580db3e0ef4584bdff1f54c8a360f50de3031e",
        ],
    },
];

// Are these digests the published ones?
fn are(digests: &[Digest], published: &[&str]) -> bool {
    digests.len() == published.len()
        && digests.iter().zip(published).all(|(digest, text)| from_hex(text.as_bytes())
            == Some(*digest))
}

fn grown(rt: &HostRuntime) -> anyhow::Result<Tree> {
    let mut tree = Tree::new(rt.alloc());
    for entry in ENTRIES.iter() {
        tree.push(leaf_digest(entry))?;
    }
    Ok(tree)
}

// The root of the first `count`, by the tree and by the row of their leaf digests. A tree that refuses is a vector that differs, here
// and below, so there is no `?`.
fn root_agrees(tree: &Tree, count: u64, published: &str) -> bool {
    let (Some(row), Ok(root)) = (tree.leaves().get(..count as usize), tree.root_at(count)) else {
        return false;
    };
    root == root_of(row) && are(&[root], &[published])
}

// The path that the tree makes is the published one, and leads to the root.
fn path_agrees(tree: &Tree, proof: &Proof) -> bool {
    let (Some(leaf), Ok(root)) = (tree.leaf(proof.first), tree.root_at(proof.count)) else {
        return false;
    };
    tree.inclusion(proof.first, proof.count).is_ok_and(|path| {
        are(&path, proof.digests) && path_leads(proof.count, proof.first, &leaf, &path, &root)
    })
}

fn consistency_agrees(tree: &Tree, proof: &Proof) -> bool {
    let (Ok(earlier), Ok(later)) = (tree.root_at(proof.first), tree.root_at(proof.count)) else {
        return false;
    };
    tree.consistency(proof.first, proof.count).is_ok_and(|made| {
        are(&made, proof.digests)
            && consistency_leads(proof.first, proof.count, &earlier, &later, &made)
    })
}

pub(crate) fn run_tree_vectors(rt: &HostRuntime, tally: &mut Tally) -> anyhow::Result<()> {
    let tree = grown(rt)?;
    for (count, root) in ROOTS.iter().enumerate() {
        let name = format!(in rt.alloc(); "root of {count}")?;
        tally.note(rt, name.as_str(), root_agrees(&tree, count as u64, root))?;
    }
    for path in PATHS.iter() {
        tally.note(rt, path.name, path_agrees(&tree, path))?;
    }
    for proof in CONSISTENCY_PROOFS.iter() {
        tally.note(rt, proof.name, consistency_agrees(&tree, proof))?;
    }
    Ok(())
}
