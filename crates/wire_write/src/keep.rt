// From what came to what is kept, and back.
ghost use Rattle.std.specs.Prelude.{◌≡◌, IfOk};
ghost use Rattle.std.specs.List.{flat_map};
ghost use Rattle.wire_theory.specs.Bytes.{big};
ghost use Rattle.wire.specs.Views.{certificate_of, list_of};
ghost use Rattle.wire_write.specs.Owned.{owned_certificate_of, owned_list_of};

use crate::owned::{OwnedCertificate, OwnedList};
use crate::put::eight_bytes;
use std::alloc::{AllocError, Global};
use wire::{Certificate, RevocationList};

impl OwnedCertificate {
    // It asks for memory, so it is no `From`.
    pub fn from_borrowed(
        heap: Global,
        certificate: &Certificate,
    ) -> Result<OwnedCertificate, AllocError>
        ensures { IfOk result (λ c. owned_certificate_of c ≡ certificate_of certificate.now) }
    {
        let name = Vec::from_slice(heap, certificate.name)?;
        Ok(OwnedCertificate {
            issuer: certificate.issuer,
            name,
            key: certificate.key,
            serial: certificate.serial,
            expiry: certificate.expiry,
            signature: certificate.signature,
        })
    }
}

impl<'a> From<&'a OwnedCertificate> for Certificate<'a> {
    ghost from_gives = { λ owned c. certificate_of c ≡ owned_certificate_of owned.now };

    fn from(owned: &'a OwnedCertificate) -> Certificate<'a> {
        Certificate {
            issuer: owned.issuer,
            name: &owned.name,
            key: owned.key,
            serial: owned.serial,
            expiry: owned.expiry,
            signature: owned.signature,
        }
    }
}

impl OwnedList {
    // It asks for memory, as the certificate's does.
    pub fn from_borrowed(heap: Global, list: &RevocationList) -> Result<OwnedList, AllocError>
        ensures { IfOk result (λ l. owned_list_of l ≡ list_of list.now) }
    {
        let serials = list.serials.iter().collect(heap)?;
        Ok(OwnedList {
            authority: list.authority,
            at: list.at,
            serials,
            signature: list.signature,
        })
    }

    // The serials in bytes, one after the other: what a borrowed list is made of.
    pub fn serial_bytes(&self, heap: Global) -> Result<Vec<u8>, AllocError>
        ensures { IfOk result (λ v. v.items ≡ flat_map (big 8) self.now.serials.items) }
    {
        let mut bytes = Vec::new(heap);
        for serial in &self.serials {
            bytes.extend_from_slice(&eight_bytes(*serial))?;
        }
        Ok(bytes)
    }
}
