// Standard output for programs. What is written is a beginning of what was to be written: no byte is left out, and none follows
// a write that failed. A program is to end at the first one that did.
#![tactic(auto)]

ghost use Rattle.output.specs.Promises.{WritesBytes, Digits};
ghost use Rattle.std.specs.Prelude.{◌≤◌, length, IfOk};

use std::io::{Error, ErrorKind};

// How many of some bytes were written, and whether these are all of them.
#[derive(Clone, Copy)]
pub struct Written {
    pub count: usize,
    pub all: bool,
}

// Writes bytes to standard output. If that fails, a line on standard error says so, and why.
pub fn print(rt: &(impl Print + Eprint), bytes: &[u8]) -> Written
    ensures { WritesBytes bytes.now result }
{
    let ended = write_turns(rt, bytes);
    if !ended.written.all {
        // nothing can be done if that fails too
        let error = &ended.error;
        let _ = eprintln!(rt; "standard output: {error}");
    }
    ended.written
}

// The same of a number, in decimal.
pub fn print_number(rt: &(impl Print + Eprint), number: u64) -> Written
    ensures { Digits number result }
{
    let mut text = [0u8; 20];
    let digits = io::decimal(number, &mut text);
    print(rt, &text[..digits])
}

// Writes bytes to standard output and says nothing if that fails: for a program that has a line on standard error already.
pub fn write(rt: &impl Print, bytes: &[u8]) -> Written
    ensures { WritesBytes bytes.now result }
{
    write_turns(rt, bytes).written
}

// What was written, and why it was not all, if it was not.
#[derive(Drop)]
struct Ended {
    written: Written,
    error: Error,
}

// Writes in as many turns as it takes. A proved loop has to end, and nothing says that a reader ever takes what is written: so the
// turns are counted, up to a number that no run uses up.
fn write_turns(rt: &impl Print, bytes: &[u8]) -> Ended
    ensures { WritesBytes bytes.now result.written }
{
    let mut count = 0;
    let mut error = nothing_taken();
    for _ in 0..u64::MAX {
        if count == bytes.len() {
            break;
        }
        match write_some(rt, &bytes[count..]) {
            Ok(taken) => count += taken,
            Err(why) => {
                error = why;
                break;
            }
        }
    }
    Ended {
        written: Written {
            count,
            all: count == bytes.len(),
        },
        error,
    }
}

// One write: how many bytes it took. A write that has to be made again took nothing and has not failed. One that takes nothing and
// gives no error has.
fn write_some(rt: &impl Print, bytes: &[u8]) -> Result<usize, Error>
    ensures { IfOk result (λ taken. taken ≤ length bytes.now) }
{
    match rt.write_some(bytes) {
        Ok(0) => Err(nothing_taken()),
        Err(error) if input_output::again_after(&error) => Ok(0),
        answer => answer,
    }
}

// The error of a write that gives none.
fn nothing_taken() -> Error {
    Error::from(ErrorKind::WriteZero)
}
