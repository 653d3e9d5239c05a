//! The form of a proof, known from its first byte.

ghost use Rattle.std.specs.Prelude.{◌≡◌};
ghost use Rattle.lrat_forms.specs.Forms.{is_letter};

/// Answers whether a proof that begins with this byte is in binary form.
pub(crate) fn is_letter(byte: u8) -> bool
    ensures { result ≡ is_letter byte }
{
    byte == b'a' || byte == b'd'
}
