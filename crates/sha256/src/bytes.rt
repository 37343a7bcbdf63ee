// Writing bytes into a place.
ghost use Rattle.std.specs.Prelude.{◌≡◌, ◌+◌, ◌≤◌, length};
ghost use Rattle.std.proofs.Math.Seq.{paste};

pub(crate) fn put(target: &mut [u8], at: usize, part: &[u8])
    requires { at + length part.now ≤ length target.old }
    ensures { target.new ≡ paste target.old at part.now (length part.now) }
{
    target[at..at + part.len()].copy_from_slice(part);
}
