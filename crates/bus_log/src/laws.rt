//! Laws of the lines of a log and their texts.
ghost use Rattle.std.specs.Prelude.{◌≡◌, ◌↔◌, ◌^◌, ℕ, true, List, Option, Some, IfSome, nat_lt};
ghost use Rattle.log_specs.specs.Line as log;
ghost use Rattle.log_specs.specs.Line.{line_text};
ghost use Rattle.log_lines.specs.IsLine.{IsLine, Fits, all_below, frame_fits};
ghost use Rattle.log_lines.specs.Lines.{line_of};
ghost use Rattle.bus_log.specs.Spelling.{Spells, IsReadAs};
ghost use Rattle.bus_log.specs.Content.{content_fits};

use crate::Line;
use can_frame::Frame;

/// Each text is read as a line, or as that of none: as one of them, and as no other.
pub fn every_text_has_one_answer()
    ensures some { (text : List ℕ) → (answer : Option log.Line) × IsReadAs text answer }
    ensures one { (text : List ℕ) (one other : Option log.Line) → IsReadAs text one → IsReadAs text other → one ≡ other }
{}

/// A line that is printed is read back.
pub fn a_printed_line_is_read_back()
    ensures { (line : log.Line) (answer : Option log.Line) → IsLine line → Fits line → IsReadAs (line_text line) answer → answer ≡ Some line }
{}

/// Two lines with one text are one line.
pub fn a_text_is_that_of_one_line()
    ensures { (text : List ℕ) (one other : log.Line) → Spells text one → Spells text other → one ≡ other }
{}

/// Each line that the code holds fits: its moment and its count of events are below 2 ^ 64, its bus, its nodes,
/// its rate and its identifier below 2 ^ 32, its bytes below 256, and its frame is well formed.
pub fn a_line_of_the_code_fits(line: &Line)
    ensures { Fits (line_of line.now) }
{
    moment_fits(line.moment());
    number_fits(line.bus());
    number_fits(line.node());
    told_fits(line);
}

/// A line that the code holds is read back from its text exactly where it is a line of a log.
pub fn a_line_of_the_code_is_read_back(line: &Line)
    ensures { (answer : Option log.Line) → IsReadAs (line_text (line_of line.now)) answer → (answer ≡ Some (line_of line.now)) ↔ IsLine (line_of line.now) }
{
    a_line_of_the_code_fits(line);
}

fn moment_fits(moment: Option<u64>)
    ensures { IfSome moment (λ t. nat_lt t (2 ^ 64) ≡ true) }
{}

fn number_fits(number: Option<u32>)
    ensures { IfSome number (λ n. nat_lt n (2 ^ 32) ≡ true) }
{}

/// What stands in a line beside its moment, its bus and its node fits.
fn told_fits(line: &Line)
    ensures { content_fits (line_of line.now) ≡ true }
{
    match line {
        Line::Req { frame, .. }
        | Line::Full { frame, .. }
        | Line::Drop { frame, .. }
        | Line::Start { frame, .. }
        | Line::LostKept { frame, .. }
        | Line::LostGone { frame, .. } => a_frame_fits(frame),
        Line::Rate { value, .. } | Line::FdRate { value, .. } => word32_fits(*value),
        Line::ToldLost { id, .. } => word32_fits(*id),
        Line::FormatError { bytes, .. }
        | Line::Bad { bytes, .. }
        | Line::ToldFormat { bytes, .. } => bytes_fit(bytes.as_slice()),
        Line::Done {
            frame,
            receivers,
            ..
        } => {
            a_frame_fits(frame);
            numbers_fit(receivers.as_slice());
        }
        Line::Fail { frame, by, .. } => {
            a_frame_fits(frame);
            word32_fits(*by);
        }
        Line::End { events, .. } => word64_fits(*events),
        Line::Keep { .. }
        | Line::Discard { .. }
        | Line::Wake { .. }
        | Line::Sleep { .. }
        | Line::Status { .. }
        | Line::State { .. }
        | Line::ToldWake { .. }
        | Line::Back { .. }
        | Line::Hurt { .. }
        | Line::Down { .. }
        | Line::Over { .. } => {}
    }
}

fn a_frame_fits(frame: &Frame)
    ensures { frame_fits frame.now ≡ true }
{
    bytes_fit(frame.bytes().as_slice());
}

fn bytes_fit(bytes: &[u8])
    ensures { all_below 256 bytes.now ≡ true }
{}

fn numbers_fit(numbers: &[u32])
    ensures { all_below (2 ^ 32) numbers.now ≡ true }
{}

fn word64_fits(number: u64)
    ensures { nat_lt number (2 ^ 64) ≡ true }
{}

fn word32_fits(number: u32)
    ensures { nat_lt number (2 ^ 32) ≡ true }
{}
