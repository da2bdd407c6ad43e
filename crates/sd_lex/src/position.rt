ghost use Rattle.std.specs.Prelude.{◌≡◌, ◌≤◌, ◌<◌, ◌^◌, length};
ghost use Rattle.std.specs.List.{count_by};
ghost use Rattle.sd_lex.specs.Bytes.{is_newline};
ghost use Rattle.sd_lex.specs.Position as positions;

/// How many newlines stand in these bytes.
fn newlines(bytes: &[u8]) -> usize
    ensures count { result ≡ count_by is_newline bytes.now }
    ensures within { result ≤ length bytes.now }
{
    bytes.iter().filter(|byte| **byte == b'\n').count()
}

/// How many physical lines a text has. A newline ends its line, so none stands behind a last one.
///
/// A source that ends too early is refused one line behind these.
pub fn line_count(text: &[u8]) -> u32
    requires { length text.now < 2 ^ 32 }
    ensures count { result ≡ positions.line_count text.now }
    ensures within { result ≤ length text.now }
{
    match text.split_last() {
        Some((_, before)) => newlines(before) as u32 + 1,
        None => 0,
    }
}
