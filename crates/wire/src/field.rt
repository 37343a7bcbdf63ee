// Numbers as they are written, the high byte first.
ghost use Rattle.std.specs.Prelude.{◌≡◌};
ghost use Rattle.wire_theory.specs.Bytes.{big, number};

// The number that eight bytes write.
pub(crate) fn number_in(bytes: &[u8; 8]) -> u64
    ensures value { result ≡ number bytes.now }
    ensures written { big 8 result ≡ bytes.now }
{
    u64::from_be_bytes(*bytes)
}

pub(crate) fn word_in(bytes: &[u8; 4]) -> u32
    ensures { big 4 result ≡ bytes.now }
{
    u32::from_be_bytes(*bytes)
}

pub(crate) fn short_in(bytes: &[u8; 2]) -> u16
    ensures { big 2 result ≡ bytes.now }
{
    u16::from_be_bytes(*bytes)
}
