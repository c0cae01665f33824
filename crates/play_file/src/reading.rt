//! Reading a play file, line by line.
ghost use Rattle.std.specs.Prelude.{◌≡◌, ◌≤◌, ◌<◌, ◌^◌, ◌+◌, ℕ, Ok, Err, IfOk, IfErr, length};
ghost use Rattle.plain_text.specs.Parts.{parts};
ghost use Rattle.play_specs.specs.Play.{Play as play, IsPlay};
ghost use Rattle.play_specs.specs.PlayText.{play_text};
ghost use Rattle.play_specs.specs.PlayReading.{IsFirstBadLine, IsReadAs};
ghost use Rattle.play_file.specs.Walk.{walk, walk_lines};
ghost use Rattle.play_file.specs.Answers.{Names, Answers};

use crate::draft::Draft;
use crate::header::read_header;
use crate::{Play, PlayError};
use plain_text::cut;
use std::alloc::Global;

/// The play whose text a file is: a header, error lines and action lines, each ended by a line feed.
/// A file that is the text of no play is refused at its first bad line.
pub fn read_play(alloc: Global, bytes: &[u8]) -> Result<Play, PlayError>
    requires bounded { length bytes.now < 2 ^ 32 }
    // The file is the text of what is read.
    ensures found { IfOk result (λ p. IsReadAs bytes.now (Ok p)) }

    // The text of each play is read as that play, unless memory runs out.
    ensures only { (p : play) → IsPlay p → bytes.now ≡ play_text p → Answers result (Ok p) }

    // The refused line is the first bad one.
    ensures line { (n : ℕ) → result ≡ Err (PlayError.Line n) → IsFirstBadLine bytes.now n }

    // A file with a first bad line is refused at it, unless memory runs out.
    ensures refused { (n : ℕ) → IsFirstBadLine bytes.now n → Answers result (Err n) }
    ensures few { IfOk result (λ p. length p.actions ≤ length bytes.now) }
{
    read(alloc, bytes)
}

fn read(alloc: Global, bytes: &[u8]) -> Result<Play, PlayError>
    requires { length bytes.now < 2 ^ 32 }
    ensures found { IfOk result (λ p. walk bytes.now ≡ Ok p) }
    ensures fault { IfErr result (λ e. Names e (walk bytes.now)) }
{
    let Some((line, rest)) = cut(b'\n', bytes) else {
        return Err(PlayError::Line { number: 1 });
    };
    let Some(header) = read_header(alloc, line) else {
        return Err(PlayError::Line { number: 1 });
    };
    let draft = read_lines(alloc, header, rest)?;
    Ok(draft.into_play())
}

/// The play of the lines behind its header.
fn read_lines(alloc: Global, header: Draft, text: &[u8]) -> Result<Draft, PlayError>
    requires { length text.now < 2 ^ 32 }
    ensures found { IfOk result (λ p. walk_lines 2 header (parts 10 text.now) ≡ Ok p) }
    ensures fault { IfErr result (λ e. Names e (walk_lines 2 header (parts 10 text.now))) }
{
    let mut draft = header;
    let mut number = 2;
    let mut rest = text;
    while let Some((line, after)) = cut(b'\n', rest) {
        if !draft.take(alloc, line)? {
            return Err(PlayError::Line { number });
        }
        number += 1;
        rest = after;
    }
    if !rest.is_empty() {
        return Err(PlayError::Line { number });
    }
    Ok(draft)
}
