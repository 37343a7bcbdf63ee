// Messages as bytes, by their kinds.
ghost use Rattle.std.specs.Prelude.{◌≡◌, ◌+◌, ◌≤◌, [], ◌∷◌, ◌++◌, length};
ghost use Rattle.std.specs.List.{flat_map};
ghost use Rattle.wire_theory.specs.Bytes.{big};
ghost use Rattle.wire_theory.specs.Messages.{FitsPath, answer, certificate_bytes, counted, encode, row};
ghost use Rattle.wire_theory.specs.Shapes.{EntriesShape};
ghost use Rattle.wire.specs.Kinds.{answer_number, kind_number};
ghost use Rattle.wire.specs.Sound.{Whole};
ghost use Rattle.wire.specs.Views.{answer_of, certificates_of, digests_of, message_of};
ghost use Rattle.wire_write.specs.Ready.{Ready, ReadyAnswer, answer_size, size};

use crate::put::Put;
use wire::{
    AnswerKind, Certificates, Challenge, Digests, Kind, Message, MonitorAnswer, Order, Signature,
};

impl Put for Kind {
    ghost bytes = { λ k. kind_number k ∷ [] };

    ghost size = { λ _. 1 };

    fn put(&self, out: &mut Vec<u8>) {
        self.number().put(out);
    }
}

impl Put for AnswerKind {
    ghost bytes = { λ k. answer_number k ∷ [] };

    ghost size = { λ _. 1 };

    fn put(&self, out: &mut Vec<u8>) {
        self.number().put(out);
    }
}

impl Put for Order<'_> {
    ghost bytes = { λ o. counted o.name.now ++ o.key.bytes };

    ghost size = { λ o. 33 + length o.name.now };

    ghost Ready = { λ o. length o.name.now ≤ 64 };

    fn put(&self, out: &mut Vec<u8>) {
        (self.name.len() as u8).put(out);
        self.name.put(out);
        self.key.bytes.put(out);
    }
}

impl Put for Challenge {
    ghost bytes = { λ o. big 8 o.serial ++ o.nonce.bytes };

    ghost size = { λ _. 24 };

    fn put(&self, out: &mut Vec<u8>) {
        self.serial.put(out);
        self.nonce.bytes.put(out);
    }
}

impl Put for Signature {
    ghost bytes = { λ s. s.bytes };

    ghost size = { λ _. 64 };

    fn put(&self, out: &mut Vec<u8>) {
        self.bytes.put(out);
    }
}

impl Put for Digests<'_> {
    ghost bytes = { λ ds. row (digests_of ds) };

    ghost size = { λ ds. length ds.bytes.now };

    ghost Ready = { λ ds. Whole 32 ds.bytes.now };

    fn put(&self, out: &mut Vec<u8>) {
        self.bytes.put(out);
    }
}

// Digests behind their count, which is one byte.
#[derive(Clone, Copy)]
struct Path<'a>(Digests<'a>);

impl Put for Path<'_> {
    ghost bytes = { λ p. length (digests_of p.0) ∷ row (digests_of p.0) };

    ghost size = { λ p. 1 + length p.0.bytes.now };

    ghost Ready = { λ p. FitsPath (digests_of p.0) × Whole 32 p.0.bytes.now };

    fn put(&self, out: &mut Vec<u8>) {
        (self.0.len() as u8).put(out);
        self.0.put(out);
    }
}

impl Put for Certificates<'_> {
    ghost bytes = { λ cs. flat_map certificate_bytes (certificates_of cs) };

    ghost size = { λ cs. length cs.bytes.now };

    ghost Ready = { λ cs. EntriesShape cs.bytes.now };

    fn put(&self, out: &mut Vec<u8>) {
        self.bytes.put(out);
    }
}

impl Put for MonitorAnswer<'_> {
    ghost bytes = { λ a. encode (answer (answer_of a)) };

    ghost size = { answer_size };

    ghost Ready = { ReadyAnswer };

    #[tactic(auto, unfolding(wire_theory::specs::Messages::encode, wire_theory::specs::Messages::answer_bytes))]
    fn put(&self, out: &mut Vec<u8>) {
        Kind::Answer.put(out);
        match self {
            MonitorAnswer::Included { head, place, path } => {
                AnswerKind::Included.put(out);
                head.put(out);
                place.put(out);
                Path(*path).put(out);
            }
            MonitorAnswer::NotDue => AnswerKind::NotDue.put(out),
            MonitorAnswer::Convicts { head, digests } => {
                AnswerKind::Convicts.put(out);
                head.put(out);
                digests.put(out);
            }
            MonitorAnswer::NoHeadSoLate => AnswerKind::NoHeadSoLate.put(out),
        }
    }
}

impl Put for Message<'_> {
    ghost bytes = { λ m. encode (message_of m) };

    ghost size = { size };

    ghost Ready = { Ready };

    #[tactic(auto, unfolding(wire_theory::specs::Messages::encode))]
    fn put(&self, out: &mut Vec<u8>) {
        match self {
            Message::Certificate(certificate) => certificate.put(out),
            Message::Sct(sct) => sct.put(out),
            Message::TreeHead(head) => head.put(out),
            Message::RevocationList(list) => list.put(out),
            Message::Order(order) => (&Kind::Order, order).put(out),
            Message::Challenge(challenge) => (&Kind::Challenge, challenge).put(out),
            Message::Published { serial } => (&Kind::Published, serial).put(out),
            Message::Submit(certificate) => (&Kind::Submit, certificate).put(out),
            Message::GetHead => Kind::GetHead.put(out),
            Message::GetInclusion { place, count } => {
                (&Kind::GetInclusion, &(place, count)).put(out)
            }
            Message::GetConsistency { from, to } => (&Kind::GetConsistency, &(from, to)).put(out),
            Message::GetEntries { from, to } => (&Kind::GetEntries, &(from, to)).put(out),
            Message::Revoke { serial, signature } => (&Kind::Revoke, &(serial, signature)).put(out),
            Message::GetList => Kind::GetList.put(out),
            Message::Bring { certificate, sct } => (&Kind::Bring, &(certificate, sct)).put(out),
            Message::Present {
                certificate,
                first,
                second,
            } => (&Kind::Present, &(certificate, &(first, second))).put(out),
            Message::Inclusion(path) => (&Kind::Inclusion, &Path(*path)).put(out),
            Message::Consistency(path) => (&Kind::Consistency, &Path(*path)).put(out),
            Message::Entries(certificates) => (&Kind::Entries, certificates).put(out),
            Message::Answer(answer) => answer.put(out),
            Message::Accepted => Kind::Accepted.put(out),
            Message::Refused { number } => (&Kind::Refused, number).put(out),
        }
    }
}
