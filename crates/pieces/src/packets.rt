// The packets of a piece of the input, listed one after the other.
ghost use Rattle.std.specs.Prelude.{◌≡◌};
ghost use Rattle.text.specs.Text.{told_text};
ghost use Rattle.pieces.specs.Input.{after_call, next_lines, after_calls, whole_in, printed};
ghost use Rattle.pieces.specs.Piece.{told_work};
ghost use Rattle.pieces.specs.Steps.{Lists};

use driver::State;
use packet::PACKET_BYTES;
use text::Text;

// What goes on from packet to packet: the state, and the next packet's index.
#[derive(Clone, Copy)]
pub struct Progress {
    pub state: State,
    pub index: u64,
}

// The same, and what is lent to packet calls.
#[derive(Drop)]
pub struct Work<'a> {
    pub progress: Progress,
    pub store: &'a mut [u8],
    pub out: &'a mut [u8],
    pub sets: &'a mut [u32],
}

impl Work<'_> {
    // The output, to be read.
    fn output(&self) -> &[u8]
        ensures { result.now ≡ self.now.out.now }
    {
        self.out
    }

    // A packet called, and its lines behind the text.
    pub(crate) fn list_packet(&mut self, packet: &[u8], text: &mut Text<'_>)
        ensures { let w = told_work self.old in
            Lists (after_call w packet.now) (next_lines w packet.now) (told_text text.old)
            (told_work self.new) (told_text text.new) }
    {
        let before = self.progress;
        let handled = driver::packet(before.state, packet, self.store, self.out, self.sets);
        lines::packet(text, before.index, packet, handled.answer, self.output());
        self.progress = Progress {
            state: handled.state,
            index: before.index.wrapping_add(1),
        };
    }

    // The whole packets of a piece, one after the other.
    pub(crate) fn list_packets(&mut self, piece: &[u8], text: &mut Text<'_>)
        ensures { let w = told_work self.old in let n = whole_in piece.now in
            Lists (after_calls n w piece.now) (printed n w piece.now) (told_text text.old)
            (told_work self.new) (told_text text.new) }
    {
        for packet in piece.chunks_exact(PACKET_BYTES) {
            self.list_packet(packet, text);
        }
    }
}
