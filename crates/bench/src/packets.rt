// A stream handed in packet by packet, round after round.
use crate::made::all;
use crate::scenario::Scenario;
use crate::{filters, stream};
use driver::{Report, STORE_BYTES, State};
use ground::Refusal;
use packet::PACKET_BYTES;

// What the packets brought in all: a reader sees by it that two builds did the same work.
#[derive(Clone, Copy)]
pub(crate) struct Sums {
    pub(crate) packets: u64,
    pub(crate) sections: u64,
    pub(crate) bytes: u64,
    pub(crate) sets: u64,
    pub(crate) begun: u64,
}

impl Sums {
    // The sums before the first packet.
    const NONE: Sums = Sums {
        packets: 0,
        sections: 0,
        bytes: 0,
        sets: 0,
        begun: 0,
    };

    // A packet's answer, and the first set of the list after it.
    fn add(&mut self, answer: Result<Option<Report>, Refusal>, set: u32) {
        self.packets = self.packets.wrapping_add(1);
        if let Ok(Some(report)) = answer {
            self.sections = self.sections.wrapping_add(report.sections as u64);
            self.bytes = self.bytes.wrapping_add(report.bytes as u64);
            self.sets = self.sets.wrapping_add(u64::from(set));
            self.begun = self.begun.wrapping_add(report.begun as u64);
        }
    }
}

// The list of sets.
type List = [u32; driver::LEAST_LIST];

// What goes from packet to packet.
#[derive(Clone, Copy)]
struct Run {
    state: State,
    sums: Sums,
}

// All packets of the stream, one after the other. The state goes by value, as the driver takes it: behind a borrow it is copied once more for each packet.
fn round(run: Run, packets: &[u8], store: &mut [u8], out: &mut [u8], sets: &mut List) -> Run {
    let mut state = run.state;
    let mut sums = run.sums;
    for packet in packets.chunks_exact(PACKET_BYTES) {
        let handled = driver::packet(state, packet, store, out, sets);
        state = handled.state;
        sums.add(handled.answer, sets[0]);
    }
    Run { state, sums }
}

// The stream of a scenario handed in so many times.
pub(crate) fn handed_in(scenario: Scenario) -> Sums {
    let mut packets = stream::zeros();
    stream::make(&mut packets, scenario.share, scenario.is_many);
    let mut store: [u8; STORE_BYTES] = all(0);
    let mut out: [u8; gather::LEAST_OUTPUT] = all(0);
    let mut sets: List = all(0);
    let mut run = Run {
        state: filters::opened(scenario.is_many, scenario.numbers),
        sums: Sums::NONE,
    };
    for _ in 0..scenario.rounds {
        run = round(run, &packets, &mut store, &mut out, &mut sets);
    }
    run.sums
}
