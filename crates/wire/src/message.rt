// The messages, one variant for each kind.
use crate::certificate::Certificate;
use crate::list::RevocationList;
use crate::log::{Sct, TreeHead};
use crate::parts::{Certificates, Digests};
use crate::seal::{Key, Nonce, Signature};

// Asks an authority for a certificate.
#[derive(Clone, Copy)]
pub struct Order<'a> {
    pub name: &'a [u8],
    pub key: Key,
}

// The authority's answer to an order.
#[derive(Clone, Copy)]
pub struct Challenge {
    pub serial: u64,
    pub nonce: Nonce,
}

// What a monitor answers to a promise that is brought to it.
#[derive(Clone, Copy)]
pub enum MonitorAnswer<'a> {
    // the entry stands at this place below this head
    Included {
        head: TreeHead,
        place: u64,
        path: Digests<'a>,
    },
    NotDue,
    // the head and the digests of its entries convict the log
    Convicts {
        head: TreeHead,
        digests: Digests<'a>,
    },
    NoHeadSoLate,
}

#[derive(Clone, Copy)]
pub enum Message<'a> {
    Certificate(Certificate<'a>),
    Sct(Sct),
    TreeHead(TreeHead),
    RevocationList(RevocationList<'a>),
    Order(Order<'a>),
    Challenge(Challenge),
    Published {
        serial: u64,
    },
    Submit(Certificate<'a>),
    GetHead,
    GetInclusion {
        place: u64,
        count: u64,
    },
    GetConsistency {
        from: u64,
        to: u64,
    },
    GetEntries {
        from: u64,
        to: u64,
    },
    Revoke {
        serial: u64,
        signature: Signature,
    },
    GetList,
    // a promise brought to a monitor
    Bring {
        certificate: Certificate<'a>,
        sct: Sct,
    },
    // asks a relying party to accept
    Present {
        certificate: Certificate<'a>,
        first: Sct,
        second: Sct,
    },
    Inclusion(Digests<'a>),
    Consistency(Digests<'a>),
    Entries(Certificates<'a>),
    Answer(MonitorAnswer<'a>),
    Accepted,
    // the number of the cause, any byte: a narrower type would ask more of whoever writes messages
    Refused {
        number: u8,
    },
}
