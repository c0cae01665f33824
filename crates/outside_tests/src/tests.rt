//! What no clause says: that calls succeed with ample memory, and what the system's files do.
use bench_outside::{FileShelf, MemShelf, MemSink, OutSink, Shelf, ShelfError, Sink, SystemFiles};
use std::alloc::Global;
use std::fs::{self};
use std::process::Abort;
use std::test::Fail;

/// Reads through the bound that callers have, and compares.
fn expect_read<H: Shelf>(
    rt: &impl Abort,
    alloc: Global,
    shelf: &mut H,
    name: &str,
    cap: u64,
    expected: Result<&[u8], ShelfError>,
) {
    let answer = shelf.read(alloc, name, cap);
    match (answer, expected) {
        (Ok(bytes), Ok(expected)) => assert_eq!(rt; bytes.as_slice(), expected, "{name}"),
        (Err(error), Err(expected)) => assert_eq!(rt; error, expected, "{name}"),
        _ => assert!(rt; false, "{name}"),
    }
}

/// Looks a name up, and compares.
fn expect_held(rt: &impl Abort, shelf: &MemShelf, name: &str, expected: Option<&[u8]>) {
    match (shelf.get(name), expected) {
        (Some(bytes), Some(expected)) => assert_eq!(rt; bytes, expected, "{name}"),
        (found, expected) => assert_eq!(rt; found.is_some(), expected.is_some(), "{name}"),
    }
}

/// Writes through the bound that callers have, and tells whether it failed.
fn fails<S: Sink>(sink: &mut S, bytes: &[u8]) -> bool {
    sink.write(bytes).is_err()
}

#[test]
fn a_shelf_whose_second_read_fails(rt: HostRuntime) -> Result<(), Fail> {
    let mut shelf = MemShelf::new(rt.alloc());
    shelf.put(rt.alloc(), "a", b"first")?;
    shelf.fail_read(rt.alloc(), 2)?;
    let answers: [Result<&[u8], ShelfError>; 3] = [Ok(b"fir"), Err(ShelfError::Failed), Ok(b"fir")];
    for expected in answers {
        expect_read(&rt, rt.alloc(), &mut shelf, "a", 3, expected);
    }
    expect_read(&rt, rt.alloc(), &mut shelf, "b", 3, Err(ShelfError::Failed));
    Ok(())
}

#[test]
fn a_shelf_whose_first_write_fails(rt: HostRuntime) -> Result<(), Fail> {
    let mut shelf = MemShelf::new(rt.alloc());
    shelf.fail_write(rt.alloc(), 1)?;
    let first = shelf.write(rt.alloc(), "a", b"first");
    assert_eq!(rt; first, Err(ShelfError::Failed));
    expect_held(&rt, &shelf, "a", None);
    shelf.write(rt.alloc(), "a", b"second")?;
    expect_held(&rt, &shelf, "a", Some(b"second"));
    Ok(())
}

#[test]
fn a_put_replaces_what_the_name_held(rt: HostRuntime) -> Result<(), Fail> {
    let mut shelf = MemShelf::new(rt.alloc());
    shelf.put(rt.alloc(), "a", b"first")?;
    shelf.put(rt.alloc(), "b", b"")?;
    shelf.put(rt.alloc(), "a", b"second")?;
    expect_held(&rt, &shelf, "a", Some(b"second"));
    expect_held(&rt, &shelf, "b", Some(b""));
    expect_held(&rt, &shelf, "c", None);
    Ok(())
}

#[test]
fn a_sink_whose_third_write_fails_after_three_bytes(rt: HostRuntime) -> Result<(), Fail> {
    let mut sink = MemSink::new(rt.alloc(), 64)?;
    sink.fail(rt.alloc(), 3, 3)?;
    let lines: [(&[u8], bool); 3] = [
        (b"0 0 req 0 000#\n", false),
        (b"0 0 start 0 000#\n", false),
        (b"100000 0 done 0 000# to 1\n", true),
    ];
    for (line, failed) in lines {
        assert_eq!(rt; fails(&mut sink, line), failed);
    }
    assert_eq!(rt;
        sink.written(),
        b"0 0 req 0 000#\n0 0 start 0 000#\n100".as_slice()
    );
    Ok(())
}

#[test]
fn a_piece_over_the_room_is_a_fault(rt: HostRuntime) -> Result<(), Fail> {
    let mut sink = MemSink::new(rt.alloc(), 4)?;
    for (piece, failed) in [(b"abc", false), (b"def", true)] {
        assert_eq!(rt; fails(&mut sink, piece), failed);
    }
    assert!(rt; !fails(&mut sink, b"d"));
    assert_eq!(rt; sink.written(), b"abcd".as_slice());
    Ok(())
}

#[test]
fn the_files_of_the_system(rt: HostRuntime) -> Result<(), Fail> {
    let alloc = rt.alloc();
    let name = "bench_outside_test_file";
    let mut shelf = FileShelf::new(alloc, SystemFiles::new(&rt));
    shelf.write(alloc, name, b"what stands in it")?;
    expect_read(&rt, alloc, &mut shelf, name, 4, Ok(b"what"));
    expect_read(&rt, alloc, &mut shelf, name, 100, Ok(b"what stands in it"));
    shelf.write(alloc, name, b"new")?;
    expect_read(&rt, alloc, &mut shelf, name, 100, Ok(b"new"));
    fs::remove_file(&rt, name)?;
    expect_read(&rt, alloc, &mut shelf, name, 100, Err(ShelfError::Failed));
    let nowhere = shelf.write(alloc, "no_such_folder/file", b"new");
    assert_eq!(rt; nowhere, Err(ShelfError::Failed));
    Ok(())
}

#[test]
fn a_full_writer(rt: HostRuntime) -> Result<(), Fail> {
    let mut room = [0u8; 4];
    let mut out = OutSink::new(room.as_mut_slice());
    assert!(rt; !fails(&mut out, b"abc"));
    assert!(rt; fails(&mut out, b"de"));
    assert_eq!(rt; room, *b"abcd");
    Ok(())
}
