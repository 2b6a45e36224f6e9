// What reading and writing share, for programs: whether a call that moved nothing is made again.
#![tactic(auto)]

ghost use Rattle.std.specs.Prelude.{◌≡◌};
ghost use Rattle.input_output.specs.Passing.{passes, error_passes};

use std::io::Error;
use std::thread;

// The two errors after which a call is made again, by the numbers that Linux gives them.
const EINTR: i32 = 4;

const EAGAIN: i32 = 11;

// Whether a call that failed with this error is made again: a signal came before it moved a byte, or it would have had to wait,
// on a descriptor that does not wait. Nothing here can wait for one descriptor, so then other programs are let run first.
pub fn again(error: i32) -> bool
    ensures { result ≡ passes error }
{
    if error == EINTR {
        return true;
    }
    if error == EAGAIN {
        thread::yield_now();
        return true;
    }
    false
}

// The same of an error as std gives it: one that the system did not give does not pass.
pub fn again_after(error: &Error) -> bool
    ensures { result ≡ error_passes error.now }
{
    match error.raw_os_error() {
        Some(code) => again(code),
        None => false,
    }
}
