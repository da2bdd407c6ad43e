ghost use Rattle.std.specs.Prelude.{◌≡◌};
ghost use Rattle.sd_lex.specs.Sign as signs;

/// Whether a byte is a sign of its own.
pub(crate) fn is_sign_of_one(byte: u8) -> bool
    ensures { result ≡ signs.is_sign_of_one byte }
{
    b"+-*%&|^~<>=()[],:.@".contains(&byte)
}

/// Whether a sign of two bytes begins.
pub(crate) fn begins_with_sign_of_two(bytes: &[u8]) -> bool
    ensures { result ≡ signs.begins_with_sign_of_two bytes.now }
{
    bytes.starts_with(b"//")
        || bytes.starts_with(b"<=")
        || bytes.starts_with(b">=")
        || bytes.starts_with(b"==")
        || bytes.starts_with(b"!=")
        || bytes.starts_with(b"+=")
        || bytes.starts_with(b"<<")
        || bytes.starts_with(b">>")
}

/// Whether a byte opens a bracket.
pub(crate) fn opens(byte: u8) -> bool
    ensures { result ≡ signs.opens byte }
{
    b"([".contains(&byte)
}

/// Whether a byte closes a bracket.
pub(crate) fn closes(byte: u8) -> bool
    ensures { result ≡ signs.closes byte }
{
    b")]".contains(&byte)
}
