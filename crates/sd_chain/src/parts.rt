//! Texts in parts, which a byte parts.
ghost use Rattle.std.specs.Prelude.{◌≡◌, ◌==◌, option_map};
ghost use Rattle.std.specs.List.{position};
ghost use Rattle.sd_chain.specs.Parts.{IsFirstPart};

/// Where this byte stands first.
fn sign_at(text: &[u8], sign: u8) -> Option<usize>
    ensures { result ≡ position (λ byte. byte == sign) text.now }
{
    text.iter().position(|byte| *byte == sign)
}

/// The first part of a text, and what stands behind the byte that ends it, where one does.
pub(crate) fn first_part(text: &[u8], sign: u8) -> (&[u8], Option<&[u8]>)
    ensures { IsFirstPart sign text.now result.0.now (option_map (λ rest. rest.now) result.1) }
{
    match sign_at(text, sign) {
        Some(end) => {
            let (part, behind) = text.split_at(end);
            (part, Some(&behind[1..]))
        }
        None => (text, None),
    }
}
