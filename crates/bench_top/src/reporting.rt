//! The line on how a call ended.
ghost use Rattle.std.specs.Prelude.{◌≡◌, ◌⊎◌, ◌∷◌, [], map, OnOk, OnErr};
ghost use Rattle.bench_outside.specs.Causes.{Rose};
ghost use Rattle.bench_outside.specs.Pieces.{WritesAll, BreaksOff};
ghost use Rattle.bench_top.specs.Report.{why_text, field_key, description_key, line_pieces, refusal_pieces, unread_pieces, report_pieces};

use crate::status::Status;
use bench_outside::{Failed, FileId, Refusal, Sink, Why};
use itoa::Buffer;

/// Writes the line on this status. Behind a write that fails nothing more is written. Takes no
/// memory.
pub(crate) fn report_status<R: Sink>(report: &mut R, status: &Status)
    ensures line { ¬ (Rose (R.faults report.old) (R.faults report.new))
        → WritesAll R.Sink report.old report.new (report_pieces status.now) }
    ensures part { WritesAll R.Sink report.old report.new (report_pieces status.now)
        ⊎ BreaksOff R.Sink report.old report.new (report_pieces status.now) }
    ensures silent { status.now ≡ Status.Done → report.new ≡ report.old }
{
    let _ = write_report(report, status);
}

/// Writes the line on this status.
fn write_report<R: Sink>(report: &mut R, status: &Status) -> Result<(), Failed>
    ensures line { OnOk result (WritesAll R.Sink report.old report.new (report_pieces status.now)) }
    ensures part { OnErr result (BreaksOff R.Sink report.old report.new (report_pieces status.now)) }
    ensures fault { OnErr result (Rose (R.faults report.old) (R.faults report.new)) }
    ensures silent { status.now ≡ Status.Done → report.new ≡ report.old }
{
    match status {
        Status::Done => Ok(()),
        Status::Usage => write_line(report, &[], b"usage"),
        Status::Refused(refusal) => write_refusal(report, refusal),
        Status::Unread(file) => write_unread(report, *file),
        Status::Unwritten => write_line(report, &[], b"unwritten"),
        Status::Memory => write_line(report, &[], b"memory"),
        Status::Spent => write_line(report, &[], b"spent"),
    }
}

/// Writes which file breaks which rule, and where.
fn write_refusal<R: Sink>(report: &mut R, refusal: &Refusal) -> Result<(), Failed>
    ensures line { OnOk result
        (WritesAll R.Sink report.old report.new (refusal_pieces refusal.now)) }
    ensures part { OnErr result
        (BreaksOff R.Sink report.old report.new (refusal_pieces refusal.now)) }
    ensures fault { OnErr result (Rose (R.faults report.old) (R.faults report.new)) }
{
    let mut node = Buffer::new();
    let mut place = Buffer::new();
    let mut at = Buffer::new();
    let why = why_name(refusal.why);
    let place = place.format(refusal.place).as_bytes();
    let at = at.format(refusal.at).as_bytes();
    match refusal.file {
        FileId::Main => write_line(report, &[b"refused", b"main", why, place], at),
        FileId::Description(number) => {
            let number = node.format(number).as_bytes();
            write_line(
                report,
                &[b"refused", b"description", number, why, place],
                at,
            )
        }
        FileId::Module(number) => {
            let number = node.format(number).as_bytes();
            write_line(report, &[b"refused", b"module", number, why, place], at)
        }
    }
}

/// Writes which file couldn't be read.
fn write_unread<R: Sink>(report: &mut R, file: FileId) -> Result<(), Failed>
    ensures line { OnOk result
        (WritesAll R.Sink report.old report.new (unread_pieces file)) }
    ensures part { OnErr result
        (BreaksOff R.Sink report.old report.new (unread_pieces file)) }
    ensures fault { OnErr result (Rose (R.faults report.old) (R.faults report.new)) }
{
    let mut node = Buffer::new();
    match file {
        FileId::Main => write_line(report, &[b"unread"], b"main"),
        FileId::Description(number) => {
            let number = node.format(number).as_bytes();
            write_line(report, &[b"unread", b"description"], number)
        }
        FileId::Module(number) => {
            let number = node.format(number).as_bytes();
            write_line(report, &[b"unread", b"module"], number)
        }
    }
}

/// Writes a line of words with a space behind each, and of a last one.
fn write_line<R: Sink>(report: &mut R, words: &[&[u8]], last: &[u8]) -> Result<(), Failed>
    ensures line { OnOk result
        (WritesAll R.Sink report.old report.new (line_pieces (map (λ w. w.now) words.now) last.now)) }
    ensures part { OnErr result
        (BreaksOff R.Sink report.old report.new (line_pieces (map (λ w. w.now) words.now) last.now)) }
    ensures fault { OnErr result (Rose (R.faults report.old) (R.faults report.new)) }
{
    for word in words {
        write_word(report, word, b' ')?;
    }
    write_word(report, last, b'\n')
}

/// Writes a word, and the byte that ends it.
fn write_word<R: Sink>(report: &mut R, word: &[u8], end: u8) -> Result<(), Failed>
    ensures word { OnOk result
        (WritesAll R.Sink report.old report.new (word.now ∷ (end ∷ []) ∷ [])) }
    ensures part { OnErr result
        (BreaksOff R.Sink report.old report.new (word.now ∷ (end ∷ []) ∷ [])) }
    ensures fault { OnErr result (Rose (R.faults report.old) (R.faults report.new)) }
    ensures kept { OnOk result (R.faults report.new ≡ R.faults report.old) }
{
    report.write(word)?;
    report.write(&[end])
}

/// What is printed of a rule or a field.
fn why_name(why: Why) -> &'static [u8]
    ensures { result.now ≡ why_text why }
{
    match why {
        Why::Line => b"Line",
        Why::Short => b"Short",
        Why::Magic => b"Magic",
        Why::Version => b"Version",
        Why::Section => b"Section",
        Why::Order => b"Order",
        Why::Number => b"Number",
        Why::Import => b"Import",
        Why::Float => b"Float",
        Why::Form => b"Form",
        Why::Utf8 => b"Utf8",
        Why::Opcode => b"Opcode",
        Why::Nesting => b"Nesting",
        Why::Count => b"Count",
        Why::Limit => b"Limit",
        Why::TypeResult => b"TypeResult",
        Why::FuncType => b"FuncType",
        Why::Limits => b"Limits",
        Why::Global => b"Global",
        Why::Export => b"Export",
        Why::Start => b"Start",
        Why::Element => b"Element",
        Why::Data => b"Data",
        Why::Index => b"Index",
        Why::Align => b"Align",
        Why::Operand => b"Operand",
        Why::Slots => b"Slots",
        Why::Segment => b"Segment",
        Why::Args => b"Args",
        Why::Missing => b"Missing",
        Why::Signature => b"Signature",
        _ => field_name(why),
    }
}

/// What is printed of a rule of a document, or of a field.
fn field_name(why: Why) -> &'static [u8]
    ensures { result.now ≡ field_key why }
{
    match why {
        Why::Size => b"Size",
        Why::Toml => b"Toml",
        Why::Resolution => b"resolution",
        Why::Stop => b"stop",
        Why::Events => b"events",
        Why::Fuel => b"fuel",
        Why::Bus => b"bus",
        Why::BusName => b"bus.name",
        Why::BusRate => b"bus.rate",
        Why::BusFdRate => b"bus.fd_rate",
        Why::Node => b"node",
        Why::NodeName => b"node.name",
        Why::NodeFmu => b"node.fmu",
        Why::NodeBus => b"node.bus",
        Why::Error => b"error",
        Why::ErrorBus => b"error.bus",
        Why::ErrorAttempt => b"error.attempt",
        Why::ErrorCount => b"error.count",
        Why::ErrorKind => b"error.kind",
        Why::ErrorBy => b"error.by",
        Why::ErrorBit => b"error.bit",
        _ => description_field(why),
    }
}

/// What is printed of a field of a description.
fn description_field(why: Why) -> &'static [u8]
    ensures { result.now ≡ description_key why }
{
    match why {
        Why::FmiVersion => b"fmiVersion",
        Why::ModelName => b"modelName",
        Why::InstantiationToken => b"instantiationToken",
        Why::CoSimulation => b"CoSimulation",
        Why::ModelIdentifier => b"modelIdentifier",
        Why::HasEventMode => b"hasEventMode",
        Why::Clock => b"Clock",
        Why::ClockName => b"Clock.name",
        Why::ClockValueReference => b"Clock.valueReference",
        Why::ClockCausality => b"Clock.causality",
        Why::ClockIntervalVariability => b"Clock.intervalVariability",
        Why::Binary => b"Binary",
        Why::BinaryName => b"Binary.name",
        Why::BinaryValueReference => b"Binary.valueReference",
        Why::BinaryCausality => b"Binary.causality",
        Why::BinaryClocks => b"Binary.clocks",
        Why::BinaryMaxSize => b"Binary.maxSize",
        Why::Terminal => b"Terminal",
        Why::TerminalName => b"Terminal.name",
        Why::TerminalRxData => b"Terminal.Rx_Data",
        Why::TerminalRxClock => b"Terminal.Rx_Clock",
        Why::TerminalTxData => b"Terminal.Tx_Data",
        Why::TerminalTxClock => b"Terminal.Tx_Clock",
        _ => b"",
    }
}
