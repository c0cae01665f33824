//! Writing the log: each line is one write.
ghost use Rattle.std.specs.Prelude.{◌≡◌, ◌∷◌, [], map, IfOk, IsErrOf};
ghost use Rattle.log_specs.specs.Line.{line_text};
ghost use Rattle.log_specs.specs.Line as log;
ghost use Rattle.log_lines.specs.Lines.{line_of};
ghost use Rattle.log_writing.specs.Endings.{code_of};
ghost use Rattle.log_writing.specs.Written.{WritesOrBreaksOff};

use crate::{Ending, RunError};
use bench_outside::Sink;
use log_lines::{Line, print_line};
use std::alloc::Global;

/// Writes one line. `Unwritten` comes only where the write failed: of the line a first part stands there. `Memory`
/// comes only where no write was made.
pub fn write_line<O: Sink>(alloc: Global, line: &Line, out: &mut O) -> Result<(), RunError>
    ensures written { WritesOrBreaksOff O.Sink out.old out.new (line_text (line_of line.now) ∷ []) result }
    ensures stopped { IsErrOf result RunError.Memory → out.new ≡ out.old }
{
    let text = print_line(alloc, line)?;
    out.write(&text)?;
    Ok(())
}

/// Writes lines, one after another. `Unwritten` comes only where a write failed: the lines before that one stand there,
/// of its own line a first part, and nothing behind it. `Memory` comes only where no write failed, and then whole lines
/// stand there.
pub fn write_lines<O: Sink>(alloc: Global, lines: &[Line], out: &mut O) -> Result<(), RunError>
    ensures written { WritesOrBreaksOff O.Sink out.old out.new (map (λ l. line_text (line_of l)) lines.now) result }
{
    for line in lines {
        write_line(alloc, line, out)?;
    }
    Ok(())
}

/// Writes the last line of a log. The errors are those of `write_line`.
pub fn write_end<O: Sink>(
    alloc: Global,
    ending: Ending,
    events: u64,
    out: &mut O,
) -> Result<Ending, RunError>
    ensures written { WritesOrBreaksOff O.Sink out.old out.new (line_text (log.End (code_of ending) events) ∷ []) result }
    ensures ending { IfOk result (λ e. e ≡ ending) }
    ensures stopped { IsErrOf result RunError.Memory → out.new ≡ out.old }
{
    let line = Line::End {
        status: ending.code(),
        events,
    };
    write_line(alloc, &line, out)?;
    Ok(ending)
}
