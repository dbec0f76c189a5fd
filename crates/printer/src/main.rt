// Reads standard input whole and prints the answer. A text of more than 32,768 bytes is read up to one byte more, which the library
// refuses. What is amiss outside the text is said on standard error, and the status is 0 all the same.
#![tactic(auto)]

ghost use Rattle.std.specs.Prelude.{◌≤◌, OnOk, length, take};
ghost use Rattle.std.specs.Io.KnownBytes.{Consumes};
ghost use Rattle.printer.specs.Answered.{Answered};

use printer_library::OUTPUT;
use std::env::{Env, FillError};
use std::fmt::Display;
use std::io;
use std::io::{ErrorKind, IsTerminal, Read, Write};

fn main(rt: HostRuntime) {
    if has_arguments(&rt) {
        say(
            &rt,
            "printer: it takes no arguments; its text comes from standard input: printer < FILE",
        );
        return;
    }
    if rt.stdin().is_terminal() {
        say(
            &rt,
            "printer: type the lines of a matrix, p=... first, and then Ctrl-D",
        );
    }
    if let Err(error) = answer(&mut rt.stdin(), &mut rt.stdout()) {
        // An answer that nobody reads is not missed.
        if error.kind() != ErrorKind::BrokenPipe {
            say(
                &rt,
                format_args!("printer: the answer could not be written: {error}"),
            );
        }
    }
}

// Whether there is an argument behind the program's name.
fn has_arguments(rt: &impl Env) -> bool {
    let mut first = [0u8; 1];
    !matches!(rt.arg(1, &mut first), Err(FillError::NotPresent))
}

fn answer<R: Read, W: Write>(input: &mut R, output: &mut W) -> io::Result<()>
    ensures { OnOk result (Answered (R.remaining input.old) (R.remaining input.new) (W.contents output.old) (W.contents output.new)) }
{
    let mut text = [0u8; 32769];
    let size = read_full(input, &mut text);
    let mut out = [0u8; OUTPUT];
    let used = printer_library::print(&text[..size], &mut out);
    output.write_all(&out[..used])
}

// Reads until buf is full, the input ends or a read fails, and returns how many bytes it put at the start of buf. It is a loop over
// `read`: `read_exact` and `io::copy` do not say what was read before a failure.
fn read_full<R: Read>(input: &mut R, buf: &mut [u8]) -> usize
    ensures in_bounds { result ≤ length buf.new }
    ensures bytes { Consumes (R.remaining input.old) (R.remaining input.new) (take result buf.new) }
{
    let mut done = 0;
    while done < buf.len() {
        match input.read(&mut buf[done..]) {
            Ok(0) | Err(_) => break,
            Ok(n) => done += n,
        }
    }
    done
}

// Says the line on standard error. Where that fails too, there is nowhere left to say so.
fn say(rt: &impl Eprint, line: impl Display + Drop) {
    let _ = rt.eprintln(line);
}
