//! Cutting a text at a separator.
ghost use Rattle.std.specs.Prelude.{◌≡◌, ◌∷◌, [], IfOk, MatchOption, option_map, map};
ghost use Rattle.frame_specs.specs.FrameReading.{cut as cut_of};
ghost use Rattle.plain_text.specs.Parts.{parts as parts_of, IsCut};

use std::alloc::{AllocError, Global};

/// What stands before the first separator, and what stands behind it; None where there is no separator.
pub fn find(separator: u8, text: &[u8]) -> Option<(&[u8], &[u8])>
    ensures { option_map (λ p. (p.0.now, p.1.now)) result ≡ cut_of separator text.now }
{
    for (i, byte) in text.iter().enumerate() {
        if *byte == separator {
            return Some((&text[..i], &text[i + 1..]));
        }
    }
    None
}

/// The same, as the first of the parts and what the others stand in.
pub fn cut(separator: u8, text: &[u8]) -> Option<(&[u8], &[u8])>
    ensures { MatchOption result (parts_of separator text.now ≡ text.now ∷ []) (λ p. IsCut separator text.now p.0.now p.1.now) }
{
    find(separator, text)
}

/// The parts of a text between its separators.
pub fn parts<'a>(alloc: Global, separator: u8, text: &'a [u8]) -> Result<Vec<&'a [u8]>, AllocError>
    ensures { IfOk result (λ v. map (λ w. w.now) v.items ≡ parts_of separator text.now) }
{
    let mut parts = Vec::new(alloc);
    let mut rest = text;
    while let Some((part, after)) = cut(separator, rest) {
        parts.push(part)?;
        rest = after;
    }
    parts.push(rest)?;
    Ok(parts)
}
