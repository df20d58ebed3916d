// Reads a script of calls and writes each outcome whole: docs/EXERCISE.md has the format.
#![tactic(auto)]

ghost use Rattle.std.specs.Prelude.{◌≡◌, length};

mod buffer_calls;
mod buffers;
mod filled;
mod line;
mod lone_calls;
mod outcome;
mod rate_calls;
mod records;
mod state_calls;
mod table_calls;

use crate::line::Line;
use crate::state_calls::Kept;
use std::io;
use std::io::{Read, Write};
use text::Text;

// The run of a script: what is kept from line to line, the line that has begun, and the outcomes that are not yet written.
#[derive(Drop)]
struct Run<'a> {
    kept: Kept,
    line: Line,
    text: Text<'a>,
}

// Zeros; only how many is promised, so that no proof spells them out.
fn zeros<const N: usize>() -> [u8; N]
    ensures { N ≡ length result }
{
    [0; N]
}

// Says on standard error what failed, and why.
// It stands in each program, and `write` in two of them: a library's public call has a promise with one outcome (tools/promised), and none says what a file or a terminal does.
fn fail(rt: HostRuntime, what: &str, error: io::Error) {
    let _ = eprintln!(rt; "{what}: {error}");
}

// Writes the text; whether that was done.
// It is no `Result`, here and below: what fails is said at once, and only whether to go on is left to tell.
fn write(rt: HostRuntime, text: &Text<'_>) -> bool {
    match rt.stdout().write_all(text.written()) {
        Ok(()) => true,
        Err(error) => {
            fail(rt, "standard output", error);
            false
        }
    }
}

impl Run<'_> {
    // Writes the outcomes; whether that was done.
    fn write(&mut self, rt: HostRuntime) -> bool {
        let is_written = write(rt, &self.text);
        self.text.clear();
        is_written
    }

    // Answers the line, which has ended, and begins a new one.
    fn answer(&mut self) {
        self.line.end();
        let answered = self
            .line
            .form()
            .and_then(|form| self.kept.answer(form, &mut self.text));
        if answered.is_none() {
            self.text.word(b"bad");
        }
        self.text.byte(b'\n');
        self.line.clear();
    }

    // The same, and the outcomes are written once they are long: none has 20,000 bytes. Whether to go on.
    fn end_line(&mut self, rt: HostRuntime) -> bool {
        self.answer();
        self.text.end < 40_000 || self.write(rt)
    }

    // Answers each line that ends in a piece, and begins the one that does not; whether to go on.
    fn take(&mut self, rt: HostRuntime, piece: &[u8]) -> bool {
        for b in piece {
            if *b != b'\n' {
                self.line.take(*b);
            } else if !self.end_line(rt) {
                return false;
            }
        }
        true
    }

    // Answers the line that no line end followed, if there is one, and writes what is left.
    fn end(&mut self, rt: HostRuntime) {
        if !self.line.is_empty() {
            self.end_line(rt);
        }
        self.write(rt);
    }

    // Reads the script, and answers its lines; whether to go on.
    fn read(&mut self, rt: HostRuntime) -> bool {
        let mut piece = zeros::<65536>();
        match rt.stdin().read(&mut piece) {
            Ok(0) => {
                self.end(rt);
                false
            }
            Ok(count) => self.take(rt, &piece[..count]),
            Err(error) => {
                fail(rt, "standard input", error);
                self.write(rt);
                false
            }
        }
    }
}

fn main(rt: HostRuntime) {
    let mut room = zeros::<65536>();
    let mut run = Run {
        kept: Kept::new(),
        line: Line::new(),
        text: Text::new(&mut room),
    };
    // A proved loop has to end, and nothing says that a script does, so it takes a number of turns that no run uses up.
    for _ in 0..u64::MAX {
        if !run.read(rt) {
            break;
        }
    }
}
