// Tests of the hasher: a message of any length, cut in two anywhere, has the digest of the whole.
#![tactic(auto)]

ghost use Rattle.std.specs.Prelude.{◌≡◌};
ghost use Rattle.sha256.specs.Standard.{digest};

#[cfg(test)]
mod tests {
    use sha256::{Hasher, sha256};

    // The digest of a message that is fed in two parts.
    fn in_two(message: &[u8], at: usize) -> [u8; 32]
        ensures { result ≡ digest message.now }
    {
        let at = at.min(message.len());
        let (front, back) = message.split_at(at);
        let mut hasher = Hasher::new();
        hasher.update(front);
        hasher.update(back);
        hasher.finalize()
    }

    #[test]
    fn every_split(rt: HostRuntime) {
        // 130 bytes: two blocks and a little more.
        let text =
            b"!(/6=DKRY`gnu!)07>ELSZahov#*18?FMT[bipw$+29@GNU/cjqx%,3:AHOV]dkry&-4;BIPW^elsz'.5<CJQX_fmt!(/6=DKRY`gnu!)07>ELSZahov#*18?FMT[bipw$";
        for length in 0..131 {
            let message = &text[0..length];
            let whole = sha256(message);
            for at in 0..length + 1 {
                assert!(rt; in_two(message, at) == whole);
            }
        }
    }
}
