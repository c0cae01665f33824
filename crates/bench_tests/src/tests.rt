//! What no clause says of a read or a write that fails: the texts of the log and of the report up to there.
use bench_outside::{FileId, MemShelf, MemSink, Refusal, Why};
use bench_top::{Status, bench};
use std::alloc::Global;
use std::process::Abort;
use std::test::Fail;

/// Ticks of a nanosecond, 500 kbit/s, 2 Mbit/s for the data of FD frames, two nodes, a millisecond; one frame.
const PLAY: &str = "play 1000000000 500000 2000000 2 1000000\n0 0 send 000#\n";

/// The words of a call.
fn strings(alloc: Global, words: &[&str]) -> Result<Vec<String>, Fail> {
    let mut given = Vec::new(alloc);
    for word in words {
        given.push(String::from_str(alloc, word)?)?;
    }
    Ok(given)
}

/// A shelf with this play.
fn shelf_of(alloc: Global, play: &str) -> Result<MemShelf, Fail> {
    let mut shelf = MemShelf::new(alloc);
    shelf.put(alloc, "a.play", play.as_bytes())?;
    Ok(shelf)
}

/// Calls the program, and compares its status, what it wrote and what it reported.
fn expect(
    rt: &impl Abort,
    alloc: Global,
    words: &[String],
    shelf: &mut MemShelf,
    sinks: (&mut MemSink, &mut MemSink),
    expected: (Status, &str, &str),
) {
    let (out, report) = sinks;
    let status = bench(alloc, words, shelf, out, report);
    let (expected_status, log, line) = expected;
    assert_eq!(rt; status, expected_status, "{log}{line}");
    assert_eq!(rt; out.written(), log.as_bytes(), "{log}");
    assert_eq!(rt; report.written(), line.as_bytes(), "{line}");
}

#[test]
fn a_sink_whose_third_write_fails_after_three_bytes(rt: HostRuntime) -> Result<(), Fail> {
    let alloc = rt.alloc();
    let mut shelf = shelf_of(alloc, PLAY)?;
    let mut out = MemSink::new(alloc, 1024)?;
    out.fail(alloc, 3, 3)?;
    let mut report = MemSink::new(alloc, 64)?;
    let words = strings(alloc, &["play", "a.play"])?;
    let log = "0 0 req 0 000#\n0 0 start 0 000#\n100";
    let expected = (Status::Unwritten, log, "unwritten\n");
    expect(
        &rt,
        alloc,
        &words,
        &mut shelf,
        (&mut out, &mut report),
        expected,
    );
    Ok(())
}

#[test]
fn a_shelf_whose_read_fails(rt: HostRuntime) -> Result<(), Fail> {
    let alloc = rt.alloc();
    let mut shelf = shelf_of(alloc, PLAY)?;
    shelf.fail_read(alloc, 1)?;
    let mut out = MemSink::new(alloc, 64)?;
    let mut report = MemSink::new(alloc, 64)?;
    let words = strings(alloc, &["play", "a.play"])?;
    let expected = (Status::Unread(FileId::Main), "", "unread main\n");
    expect(
        &rt,
        alloc,
        &words,
        &mut shelf,
        (&mut out, &mut report),
        expected,
    );
    Ok(())
}

/// A clause speaks of one run, and want of memory may always be answered: that the report's fault
/// isn't looked at, this shows.
#[test]
fn a_report_that_fails_changes_no_status(rt: HostRuntime) -> Result<(), Fail> {
    let alloc = rt.alloc();
    let mut shelf = shelf_of(alloc, "abc")?;
    let refusal = Refusal {
        file: FileId::Main,
        why: Why::Line,
        place: 1,
        at: 0,
    };
    let calls: [(&[&str], Status, &str); 2] = [
        (&["play", "a.play"], Status::Refused(refusal), "re"),
        (&["play"], Status::Usage, "us"),
    ];
    for (words, expected, part) in calls {
        let words = strings(alloc, words)?;
        let mut out = MemSink::new(alloc, 64)?;
        let mut report = MemSink::new(alloc, 64)?;
        report.fail(alloc, 1, 2)?;
        let expected = (expected, "", part);
        expect(
            &rt,
            alloc,
            &words,
            &mut shelf,
            (&mut out, &mut report),
            expected,
        );
    }
    Ok(())
}
