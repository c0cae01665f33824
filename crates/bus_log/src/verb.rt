//! The words that say what a line of a bus tells.
ghost use Rattle.std.specs.Prelude.{◌≡◌, option_map, bytes_eq};
ghost use Rattle.log_specs.specs.Line.{cause_text as text_of_cause};
ghost use Rattle.bus_log.specs.Verbs.{named, verb_named as verb_of, verb_text as text_of};
ghost use Rattle.bus_log.specs.Reading.{level_named as level_of, cause_named as cause_of_word};
ghost use Rattle.log_lines.specs.Lines.{declared_of, cause_of};

use log_lines::{Cause, Level, cause_text, level_text};

/// What a line of a bus tells, by its word.
#[derive(Clone, Copy)]
pub(crate) enum Verb {
    Req,
    Full,
    Drop,
    Keep,
    Discard,
    Wake,
    Sleep,
    Rate,
    FdRate,
    Status,
    State,
    FormatError,
    Bad,
    Told,
    Back,
    Start,
    Lost,
    Done,
    Fail,
    Hurt,
}

const VERBS: [Verb; 20] = [
    Verb::Req,
    Verb::Full,
    Verb::Drop,
    Verb::Keep,
    Verb::Discard,
    Verb::Wake,
    Verb::Sleep,
    Verb::Rate,
    Verb::FdRate,
    Verb::Status,
    Verb::State,
    Verb::FormatError,
    Verb::Bad,
    Verb::Told,
    Verb::Back,
    Verb::Start,
    Verb::Lost,
    Verb::Done,
    Verb::Fail,
    Verb::Hurt,
];

const LEVELS: [Level; 3] = [Level::Active, Level::Passive, Level::Off];

const CAUSES: [Cause; 9] = [
    Cause::Trap,
    Cause::Spent,
    Cause::Status2,
    Cause::Status3,
    Cause::Status4,
    Cause::BadReply,
    Cause::BadBuffer,
    Cause::Loop,
    Cause::BadInterval,
];

/// The verb that this word is.
pub(crate) fn verb_named(word: &[u8]) -> Option<Verb>
    ensures { result ≡ verb_of word.now }
{
    verb_among(&VERBS, word)
}

fn verb_among(verbs: &[Verb], word: &[u8]) -> Option<Verb>
    ensures { result ≡ named text_of verbs.now word.now }
{
    let mut left = verbs;
    while let [verb, others @ ..] = left {
        if is_word(word, verb_text(*verb)) {
            return Some(*verb);
        }
        left = others;
    }
    None
}

/// The state that this word is.
pub(crate) fn level_named(word: &[u8]) -> Option<Level>
    ensures { option_map declared_of result ≡ level_of word.now }
{
    let level = LEVELS
        .iter()
        .find(|level| is_word(word, level_text(**level)));
    level.copied()
}

/// The cause that this word is.
pub(crate) fn cause_named(word: &[u8]) -> Option<Cause>
    ensures { option_map cause_of result ≡ cause_of_word word.now }
{
    cause_among(&CAUSES, word)
}

fn cause_among(causes: &[Cause], word: &[u8]) -> Option<Cause>
    ensures { result ≡ named (λ c. text_of_cause (cause_of c)) causes.now word.now }
{
    let mut left = causes;
    while let [cause, others @ ..] = left {
        if is_word(word, cause_text(*cause)) {
            return Some(*cause);
        }
        left = others;
    }
    None
}

fn verb_text(verb: Verb) -> &'static [u8]
    ensures { result.now ≡ text_of verb }
{
    match verb {
        Verb::Req => b"req",
        Verb::Full => b"full",
        Verb::Drop => b"drop",
        Verb::Keep => b"keep",
        Verb::Discard => b"discard",
        Verb::Wake => b"wake",
        Verb::Sleep => b"sleep",
        Verb::Rate => b"rate",
        Verb::FdRate => b"fdrate",
        Verb::Status => b"status",
        Verb::State => b"state",
        Verb::FormatError => b"ferr",
        Verb::Bad => b"bad",
        Verb::Told => b"told",
        Verb::Back => b"back",
        Verb::Start => b"start",
        Verb::Lost => b"lost",
        Verb::Done => b"done",
        Verb::Fail => b"fail",
        Verb::Hurt => b"hurt",
    }
}

/// Whether a text is this word.
pub(crate) fn is_word(text: &[u8], word: &[u8]) -> bool
    ensures { result ≡ bytes_eq text.now word.now }
{
    text == word
}
