// Bytes of a line or of a name, as they can be shown.
ghost use Rattle.std.specs.Prelude.{Some};
ghost use Rattle.std.specs.Fmt.{WritesOnOk};
ghost use Rattle.std.specs.List.{flat_map};
ghost use Rattle.script.specs.Texts.{shown_byte};

use std::fmt;

// Bytes that print as they are where they are printable ASCII, from LEAST on, and as \xNN elsewhere.
#[derive(Clone, Copy)]
pub struct Shown<'a, const LEAST: u8>(pub &'a [u8]);

impl<const LEAST: u8> fmt::Display for Shown<'_, LEAST> {
    ghost output = { λ s. Some (flat_map (shown_byte LEAST) s.0.now) };

    fn fmt<W: fmt::Write>(&self, f: &mut fmt::Formatter<W>) -> fmt::Result {
        for &b in self.0 {
            write_shown::<LEAST, W>(b, f)?;
        }
        Ok(())
    }
}

fn write_shown<const LEAST: u8, W: fmt::Write>(b: u8, f: &mut fmt::Formatter<W>) -> fmt::Result
    ensures { WritesOnOk W.write_str_gives f.old result (shown_byte LEAST b) f.new }
{
    if LEAST <= b && b < 127 {
        f.write_char(char::from(b))
    } else {
        write!(f, "\\x{b:02x}")
    }
}
