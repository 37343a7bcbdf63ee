// Certificates, promises, heads and rows, printed in words.
ghost use Rattle.std.specs.Prelude.{Some};
ghost use Rattle.wire.specs.Views.{certificate_of, digests_of, head_of, list_of, sct_of};
ghost use Rattle.show.specs.Words.{certificate_text, digests_text, head_text, list_text, name_text, sct_text};

use script::{Hex, Shown};
use std::fmt;
use wire::{Certificate, Digests, RevocationList, Sct, TreeHead};

// A part of a message that prints in words.
#[derive(Clone, Copy)]
pub(crate) struct InWords<T>(pub(crate) T);

// A name between quotes, with its length.
#[derive(Clone, Copy)]
pub(crate) struct Name<'a>(pub(crate) &'a [u8]);

impl fmt::Display for Name<'_> {
    ghost output = { λ n. Some (name_text n.0.now) };

    fn fmt<W: fmt::Write>(&self, f: &mut fmt::Formatter<W>) -> fmt::Result {
        write!(f, "\"{}\" ({} bytes)", Shown::<b' '>(self.0), self.0.len())
    }
}

impl fmt::Display for InWords<&Certificate<'_>> {
    ghost output = { λ c. Some (certificate_text (certificate_of c.0.now)) };

    fn fmt<W: fmt::Write>(&self, f: &mut fmt::Formatter<W>) -> fmt::Result {
        let certificate = self.0;
        write!(
            f,
            "certificate of authority {} for {}, serial {}, good until tick {}, key {}, signature {}",
            certificate.issuer,
            Name(certificate.name),
            certificate.serial,
            certificate.expiry,
            Hex(&certificate.key.bytes),
            Hex(&certificate.signature.bytes)
        )
    }
}

impl fmt::Display for InWords<&Sct> {
    ghost output = { λ p. Some (sct_text (sct_of p.0.now)) };

    fn fmt<W: fmt::Write>(&self, f: &mut fmt::Formatter<W>) -> fmt::Result {
        let sct = self.0;
        write!(
            f,
            "promise of log {} at tick {} for the certificate with digest {}, signature {}",
            sct.log,
            sct.at,
            Hex(&sct.leaf.bytes),
            Hex(&sct.signature.bytes)
        )
    }
}

impl fmt::Display for InWords<&TreeHead> {
    ghost output = { λ h. Some (head_text (head_of h.0.now)) };

    fn fmt<W: fmt::Write>(&self, f: &mut fmt::Formatter<W>) -> fmt::Result {
        let head = self.0;
        write!(
            f,
            "head of log {} at tick {} with {} entries and root {}, signature {}",
            head.log,
            head.at,
            head.count,
            Hex(&head.root.bytes),
            Hex(&head.signature.bytes)
        )
    }
}

impl fmt::Display for InWords<&Digests<'_>> {
    ghost output = { λ ds. Some (digests_text (digests_of ds.0.now)) };

    fn fmt<W: fmt::Write>(&self, f: &mut fmt::Formatter<W>) -> fmt::Result {
        write!(f, "{} digests:", self.0.len())?;
        for digest in self.0.iter() {
            write!(f, " {}", Hex(&digest.bytes))?;
        }
        Ok(())
    }
}

impl fmt::Display for InWords<&RevocationList<'_>> {
    ghost output = { λ l. Some (list_text (list_of l.0.now)) };

    fn fmt<W: fmt::Write>(&self, f: &mut fmt::Formatter<W>) -> fmt::Result {
        let list = self.0;
        let count = list.serials.len();
        write!(
            f,
            "revocation list of authority {} at tick {} with {count} serials:",
            list.authority, list.at
        )?;
        for serial in list.serials.iter() {
            write!(f, " {serial}")?;
        }
        write!(f, ", signature {}", Hex(&list.signature.bytes))
    }
}
