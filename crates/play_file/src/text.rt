//! The words of a line.
ghost use Rattle.std.specs.Prelude.{◌≡◌, bytes_eq};
ghost use Rattle.plain_text.specs.Parts.{parts, words_of};
ghost use Rattle.play_file.specs.Parts.{AreWords};

use plain_text::cut;

/// The words of a line, where it has as many as a line can have.
#[derive(Clone, Copy)]
pub(crate) enum Words<'a> {
    Three(&'a [u8], &'a [u8], &'a [u8]),
    Four(&'a [u8], &'a [u8], &'a [u8], &'a [u8]),
    Six(&'a [u8], &'a [u8], &'a [u8], &'a [u8], &'a [u8], &'a [u8]),
    Other,
}

/// The words of a line.
pub(crate) fn words_in(line: &[u8]) -> Words<'_>
    ensures { AreWords result (words_of line.now) }
{
    let Some((first, rest)) = cut(b' ', line) else {
        return Words::Other;
    };
    let Some((second, rest)) = cut(b' ', rest) else {
        return Words::Other;
    };
    let Some((third, rest)) = cut(b' ', rest) else {
        return Words::Three(first, second, rest);
    };
    let Some((fourth, rest)) = cut(b' ', rest) else {
        return Words::Four(first, second, third, rest);
    };
    let Some((fifth, rest)) = cut(b' ', rest) else {
        return Words::Other;
    };
    match cut(b' ', rest) {
        None => Words::Six(first, second, third, fourth, fifth, rest),
        Some(_) => Words::Other,
    }
}

/// Whether a text is this word.
pub(crate) fn is_word(text: &[u8], word: &[u8]) -> bool
    ensures { result ≡ bytes_eq text.now word.now }
{
    text == word
}
