// The next digests of four chains, worked out one at a time and all at once.
ghost use Rattle.std.specs.Prelude.{◌≡◌};
ghost use Rattle.bench_hash.specs.Steps.{stepped, times};

use crate::chains::Chains;
use merkle::{Digest, node_digest, node_digests, root_of};

impl Chains {
    pub(crate) const START: Chains = Chains {
        a: Digest { bytes: [1; 32] },
        b: Digest { bytes: [2; 32] },
        c: Digest { bytes: [3; 32] },
        d: Digest { bytes: [4; 32] },
    };

    pub(crate) fn step(self) -> Chains
        ensures { result ≡ stepped self }
    {
        Chains {
            a: node_digest(&self.a, &self.a),
            b: node_digest(&self.b, &self.b),
            c: node_digest(&self.c, &self.c),
            d: node_digest(&self.d, &self.d),
        }
    }

    pub(crate) fn step_at_once(self) -> Chains
        ensures { result ≡ stepped self }
    {
        let [a, b, c, d] = node_digests(&[
            self.a, self.a, self.b, self.b, self.c, self.c, self.d, self.d,
        ]);
        Chains { a, b, c, d }
    }

    // The chains after so many steps, each taken as `step` takes it.
    pub(crate) fn after<F: Fn(Chains) -> Chains>(self, steps: u64, step: F) -> Chains
        requires callable { F.IsAlwaysCallable step }
        requires steps { (c r : Chains) → F.post step c r → r ≡ stepped c }
        ensures { result ≡ times steps self }
    {
        let mut chains = self;
        for _done in 0..steps {
            chains = step(chains);
        }
        chains
    }

    // One digest that depends on all four.
    pub(crate) fn root(self) -> Digest {
        root_of(&[self.a, self.b, self.c, self.d])
    }
}
