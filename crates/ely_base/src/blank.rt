//! The blanks that stand round the parts of a line or a header.

ghost use Rattle.std.specs.Prelude.{◌≡◌};
ghost use Rattle.ely_base.specs.Blanks.{is_blank};

/// Whether the byte is a space or a tab.
pub fn is_blank(b: u8) -> bool
    ensures { result ≡ is_blank b }
{
    b == b' ' || b == b'\t'
}
