//! Writes the module of a guest, or its description, to standard output:
//!
//!     guests listener | echo | gateway | flooder
//!     guests sender FRAME COUNTER RESOLUTION
//!     guests sleeper FRAME
//!     guests description TERMINALS [timer]
//!
//! A FRAME is as in the texts of plays, as `123#0a0b`. The exit status is 0, or 2 where the words are none of these, and
//! 7 where memory or the output failed.
#![tactic(auto)]

mod words;

use std::env;
use std::io::{self, Write};
use std::process::ExitCode;

const USAGE: u8 = 2;

const FAILED: u8 = 7;

fn main(rt: HostRuntime) -> ExitCode {
    match written(&rt) {
        Ok(true) => ExitCode::from(0),
        Ok(false) => ExitCode::from(USAGE),
        Err(_) => ExitCode::from(FAILED),
    }
}

/// Whether the words ask for anything, and then it was written.
fn written(rt: &HostRuntime) -> io::Result<bool> {
    let alloc = rt.alloc();
    let words = env::args(rt)?.skip(1).collect::<Vec<String>>(alloc)?;
    let Some(file) = words::file_of(alloc, words.as_slice())? else {
        return Ok(false);
    };
    let mut out = rt.stdout();
    out.write_all(file.as_slice())?;
    out.flush()?;
    Ok(true)
}
