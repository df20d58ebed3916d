// What a read of the input brings, listed: its whole packets, or at the end what is left.
ghost use Rattle.std.specs.Prelude.{◌≡◌, ◌≤◌, true, false, length, take};
ghost use Rattle.text.specs.Text.{told_text};
ghost use Rattle.pieces.specs.Piece.{told_held, told_read, more_of, ended_of};
ghost use Rattle.pieces.specs.Promises.{Begins, ListsRead};

use crate::packets::{Progress, Work};
use driver::Choice;
use octets::further;
use packet::PACKET_BYTES;
use pid::Pid;
use text::Text;

// What a read brought: so many bytes, the end of the input, or an error. No `Result` of `read`: of what is left, the end makes a packet, and no bytes and an error don't.
#[derive(Clone, Copy)]
pub enum Brought {
    Bytes(usize),
    End,
    Failure,
}

// Between two reads: the progress, and how many bytes of a packet are at the piece's start already.
#[derive(Clone, Copy)]
pub struct Step {
    pub progress: Progress,
    pub kept: usize,
}

// Where reads go: how many bytes of a packet are at its start already.
#[derive(Drop)]
pub struct Piece<'a> {
    pub bytes: &'a mut [u8],
    pub kept: usize,
}

// A fresh state with a filter on PID 0 that lets all tables through, and nothing read.
pub fn begin() -> Step
    ensures { Begins result }
{
    let opened = driver::open(driver::fresh(), Pid::PROGRAM_ASSOCIATION, Choice::All);
    Step {
        progress: Progress {
            state: opened.state,
            index: 0,
        },
        kept: 0,
    }
}

impl Piece<'_> {
    // The first bytes, to be read: as many as there are at most.
    fn first(&self, size: usize) -> &[u8]
        ensures { result.now ≡ take size self.now.bytes.now }
    {
        text::first(self.bytes, size)
    }

    // The whole packets listed in an empty text, and what is left of the piece moved to its start.
    fn list_more(&mut self, end: usize, work: &mut Work<'_>, text: &mut Text<'_>)
        requires { end ≤ length self.old.bytes.now }
        ensures { told_read self.new work.new text.new true ≡ more_of (told_held self.old work.old) end (told_text text.old) }
    {
        text.clear();
        work.list_packets(self.first(end), text);
        let rest = end % PACKET_BYTES;
        self.bytes.copy_within(end - rest..end, 0);
        self.kept = rest;
    }

    // The kept bytes at the end of the input, listed in an empty text.
    fn list_end(&mut self, work: &mut Work<'_>, text: &mut Text<'_>)
        ensures { told_read self.new work.new text.new false ≡ ended_of (told_held self.old work.old) (told_text text.old) }
    {
        let kept = self.kept;
        text.clear();
        if 0 < kept {
            work.list_packet(self.first(kept), text);
        }
        self.kept = 0;
    }

    // What a read brought behind the kept bytes, listed in an empty text; whether to read on, which the promise has as a truth value (`ListsRead`).
    pub fn list_read(&mut self, brought: Brought, work: &mut Work<'_>, text: &mut Text<'_>) -> bool
        ensures { ListsRead (told_held self.old work.old) brought (told_text text.old) (told_read self.new work.new text.new result) }
    {
        match brought {
            Brought::Bytes(size) => {
                let end = further(self.kept, size, self.bytes.len());
                self.list_more(end, work, text);
                true
            }
            Brought::End => {
                self.list_end(work, text);
                false
            }
            Brought::Failure => {
                text.clear();
                false
            }
        }
    }
}
