ghost use Rattle.std.specs.Prelude.{◌≡◌};
ghost use Rattle.sd_lex.specs.Bytes as kinds;

/// A space, or a tab, which counts as a space.
pub(crate) fn is_blank(byte: u8) -> bool
    ensures { result ≡ kinds.is_blank byte }
{
    byte == b' ' || byte == b'\t'
}

/// A comment begins with it.
pub(crate) fn is_comment(byte: u8) -> bool
    ensures { result ≡ kinds.is_comment byte }
{
    byte == b'#'
}

/// A decimal digit.
pub(crate) fn is_digit(byte: u8) -> bool
    ensures { result ≡ kinds.is_digit byte }
{
    byte.is_ascii_digit()
}

/// A letter or an underscore.
pub(crate) fn is_letter(byte: u8) -> bool
    ensures { result ≡ kinds.is_letter byte }
{
    byte.is_ascii_alphabetic() || byte == b'_'
}

/// A byte of a name behind its first.
pub(crate) fn is_name_byte(byte: u8) -> bool
    ensures { result ≡ kinds.is_name_byte byte }
{
    is_letter(byte) || is_digit(byte)
}

/// One of the two quotes.
pub(crate) fn is_quote(byte: u8) -> bool
    ensures { result ≡ kinds.is_quote byte }
{
    byte == b'\'' || byte == b'"'
}
