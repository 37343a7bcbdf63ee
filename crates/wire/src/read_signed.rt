// Reads what is signed, as a message and as a part of one: certificates, promises, heads and revocation lists.
ghost use Rattle.std.specs.Prelude.{◌≡◌, ◌∷◌, ◌++◌, MatchOption};
ghost use Rattle.wire_theory.specs.Messages.{FitsCertificate, FitsHead, FitsSct, certificate_bytes, head_bytes, sct_bytes};
ghost use Rattle.wire.specs.Reading.{OfKind};
ghost use Rattle.wire.specs.Taking.{BeginsCertificate, BeginsHead, BeginsSct, TakesWhole};
ghost use Rattle.wire.specs.Views.{certificate_of, head_of, sct_of};

use crate::certificate::Certificate;
use crate::fields::Fields;
use crate::kind::Kind;
use crate::list::RevocationList;
use crate::log::{Sct, TreeHead};
use crate::message::Message;
use crate::parts::Serials;

// Each is read behind its kind where a message begins with it, and with its kind where it is a part of one. As a part it is inlined:
// a row of certificates is then looked through without copying what nobody asks for.
impl<'a> Fields<'a> {
    #[inline(always)]
    pub(crate) fn certificate(&mut self) -> Option<Certificate<'a>>
        ensures { TakesWhole BeginsCertificate certificate_bytes FitsCertificate certificate_of self.old self.new result }
    {
        // None is shorter: with that asked first, the compiler leaves out what follows from it.
        if self.len() < 115 {
            return None;
        }
        self.kind(Kind::Certificate)?;
        self.rest_of_certificate()
    }

    fn rest_of_certificate(&mut self) -> Option<Certificate<'a>>
        ensures { TakesWhole BeginsCertificate certificate_bytes FitsCertificate certificate_of (1 ∷ self.old) self.new result }
    {
        let issuer = self.byte()?;
        let name = self.name()?;
        // The others are of one length, and are asked for at once.
        let mut rest = Fields::of(self.bytes(112)?);
        Some(Certificate {
            issuer,
            name,
            key: rest.key()?,
            serial: rest.number()?,
            expiry: rest.number()?,
            signature: rest.signature()?,
        })
    }

    #[inline(always)]
    pub(crate) fn sct(&mut self) -> Option<Sct>
        ensures { TakesWhole BeginsSct sct_bytes FitsSct sct_of self.old self.new result }
    {
        self.kind(Kind::Sct)?;
        self.rest_of_sct()
    }

    fn rest_of_sct(&mut self) -> Option<Sct>
        ensures { TakesWhole BeginsSct sct_bytes FitsSct sct_of (2 ∷ self.old) self.new result }
    {
        Some(Sct {
            log: self.byte()?,
            leaf: self.digest()?,
            at: self.number()?,
            signature: self.signature()?,
        })
    }

    #[inline(always)]
    pub(crate) fn head(&mut self) -> Option<TreeHead>
        ensures { TakesWhole BeginsHead head_bytes FitsHead head_of self.old self.new result }
    {
        self.kind(Kind::TreeHead)?;
        self.rest_of_head()
    }

    fn rest_of_head(&mut self) -> Option<TreeHead>
        ensures { TakesWhole BeginsHead head_bytes FitsHead head_of (3 ∷ self.old) self.new result }
    {
        let log = self.byte()?;
        let at = self.number()?;
        let count = self.number()?;
        if count > 65536 {
            return None;
        }
        Some(TreeHead {
            log,
            at,
            count,
            root: self.digest()?,
            signature: self.signature()?,
        })
    }
}

// A reader for each kind. They share `Fields`; what is left is to say which fields these are, and that no byte is left behind them.
pub(crate) fn certificate(body: &[u8]) -> Option<Message<'_>>
    ensures { OfKind Kind.Certificate body.now result }
{
    let mut fields = Fields::of(body);
    let certificate = fields.rest_of_certificate()?;
    fields.end()?;
    Some(Message::Certificate(certificate))
}

pub(crate) fn sct(body: &[u8]) -> Option<Message<'_>>
    ensures { OfKind Kind.Sct body.now result }
{
    let mut fields = Fields::of(body);
    let sct = fields.rest_of_sct()?;
    fields.end()?;
    Some(Message::Sct(sct))
}

pub(crate) fn tree_head(body: &[u8]) -> Option<Message<'_>>
    ensures { OfKind Kind.TreeHead body.now result }
{
    let mut fields = Fields::of(body);
    let head = fields.rest_of_head()?;
    fields.end()?;
    Some(Message::TreeHead(head))
}

pub(crate) fn revocation_list(body: &[u8]) -> Option<Message<'_>>
    ensures { OfKind Kind.RevocationList body.now result }
{
    let mut fields = Fields::of(body);
    let authority = fields.byte()?;
    let at = fields.number()?;
    let count = fields.short()?;
    if count > 1024 {
        return None;
    }
    let bytes = fields.bytes(8 * count as usize)?;
    let signature = fields.signature()?;
    fields.end()?;
    // Last, so that a list of a wrong length isn't gone through.
    let serials = Serials { bytes };
    if !serials.are_rising() {
        return None;
    }
    Some(Message::RevocationList(RevocationList {
        authority,
        at,
        serials,
        signature,
    }))
}
