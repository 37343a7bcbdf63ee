// The four things that are signed.
ghost use Rattle.std.specs.Prelude.{◌≡◌, ◌+◌, ◌≤◌, length};
ghost use Rattle.wire_theory.specs.Messages.{FitsCertificate, FitsHead, FitsList, FitsSct, signed_certificate, signed_head, signed_list, signed_sct};
ghost use Rattle.wire.specs.Reading.{RisingRow};
ghost use Rattle.wire.specs.Sound.{Whole};
ghost use Rattle.wire.specs.Views.{certificate_of, head_of, list_of, sct_of};

use crate::put::Put;
use crate::signed::Signed;
use crate::sizes::SCT_SIZE;
use wire::{Certificate, Kind, RevocationList, Sct, Signature, TreeHead};

impl Signed for Certificate<'_> {
    ghost signed = { λ c. signed_certificate (certificate_of c) };

    ghost signed_size = { λ c. 51 + length c.name.now };

    ghost seal = { λ c. c.signature.bytes };

    ghost Fits = { λ c. FitsCertificate (certificate_of c) };

    ghost Wrong = { λ c. FitsCertificate (certificate_of c) → ⊥ };

    ghost Ready = { λ c. length c.name.now ≤ 64 };

    fn size(self) -> Option<usize> {
        let length = self.name.len();
        (length <= 64).then_some(115 + length)
    }

    #[tactic(auto, unfolding(wire_theory::specs::Messages::signed_certificate))]
    fn put_signed(&self, out: &mut Vec<u8>) {
        Kind::Certificate.put(out);
        self.issuer.put(out);
        (self.name.len() as u8).put(out);
        self.name.put(out);
        self.key.bytes.put(out);
        self.serial.put(out);
        self.expiry.put(out);
    }

    fn signature(&self) -> &Signature {
        &self.signature
    }
}

impl Signed for Sct {
    ghost signed = { λ p. signed_sct (sct_of p) };

    ghost signed_size = { λ _. 42 };

    ghost seal = { λ p. p.signature.bytes };

    ghost Fits = { λ p. FitsSct (sct_of p) };

    ghost Wrong = { λ p. FitsSct (sct_of p) → ⊥ };

    fn size(self) -> Option<usize> {
        Some(SCT_SIZE)
    }

    #[tactic(auto, unfolding(wire_theory::specs::Messages::signed_sct))]
    fn put_signed(&self, out: &mut Vec<u8>) {
        Kind::Sct.put(out);
        self.log.put(out);
        self.leaf.bytes.put(out);
        self.at.put(out);
    }

    fn signature(&self) -> &Signature {
        &self.signature
    }
}

impl Signed for TreeHead {
    ghost signed = { λ h. signed_head (head_of h) };

    ghost signed_size = { λ _. 50 };

    ghost seal = { λ h. h.signature.bytes };

    ghost Fits = { λ h. FitsHead (head_of h) };

    ghost Wrong = { λ h. FitsHead (head_of h) → ⊥ };

    fn size(self) -> Option<usize> {
        (self.count <= 65536).then_some(114)
    }

    #[tactic(auto, unfolding(wire_theory::specs::Messages::signed_head))]
    fn put_signed(&self, out: &mut Vec<u8>) {
        Kind::TreeHead.put(out);
        self.log.put(out);
        self.at.put(out);
        self.count.put(out);
        self.root.bytes.put(out);
    }

    fn signature(&self) -> &Signature {
        &self.signature
    }
}

impl Signed for RevocationList<'_> {
    ghost signed = { λ l. signed_list (list_of l) };

    ghost signed_size = { λ l. 12 + length l.serials.bytes.now };

    ghost seal = { λ l. l.signature.bytes };

    ghost Fits = { λ l. FitsList (list_of l) };

    ghost Wrong = { λ l. Whole 8 l.serials.bytes.now → FitsList (list_of l) → ⊥ };

    ghost Ready = { λ l. RisingRow l.serials.bytes.now × (length l.serials.bytes.now ≤ 8192) };

    fn size(self) -> Option<usize> {
        let length = self.serials.bytes.len();
        if length > 8192 || !self.serials.are_rising() {
            return None;
        }
        Some(76 + length)
    }

    fn put_signed(&self, out: &mut Vec<u8>) {
        let serials = self.serials.bytes;
        Kind::RevocationList.put(out);
        self.authority.put(out);
        self.at.put(out);
        ((serials.len() / 8) as u16).to_be_bytes().put(out);
        serials.put(out);
    }

    fn signature(&self) -> &Signature {
        &self.signature
    }
}
