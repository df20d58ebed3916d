// The walk over a PMT's body: descriptors, then entries, each followed by its descriptors, until the bytes are used up exactly.
// The search is lent, and the other parameters and the answer are single numbers and the body, so that the compiler can make each call a jump, and the stack need not grow with the section.
// The answer is whether the loops are filled: a `Result` is two numbers, and with it the calls stayed calls.
ghost use Rattle.std.specs.Prelude.{◌≡◌, ◌+◌, ◌*◌, ◌<◌, ◌≤◌, length};
ghost use Rattle.loops.specs.Steps.{met_by, told_walk, walk_descriptors, walk_entries};

use crate::Surveyed;
use octets::number_of_two;

// A search for an item of the loop asked for, item 0 is the entry and item i + 1 its descriptor i; and what was found so far.
// The place of every entry is noted, under the number of its loop.
#[derive(Drop)]
pub(crate) struct Search {
    pub(crate) asked: usize,
    pub(crate) item: usize,
    pub(crate) found: Surveyed,
}

impl Search {
    // Walks the entries from `at` on, the first of which has the loop `number`.
    #[cycle(walk)]
    fn entries(&mut self, body: &[u8], at: usize, number: usize) -> bool
        requires { (length body.now ≤ 1020) × (at ≤ length body.now) × (0 < number) × (5 * number + 7 ≤ at) × (self.old.found.walked.descriptors ≤ at) }
        ensures { told_walk result self.new.found
            ≡ walk_entries self.old.asked self.old.item body.now at number (met_by self.old.found.walked) self.old.found.places }
    {
        let left = body.len() - at;
        if left == 0 {
            self.found.walked.entries = number - 1;
            return true;
        }
        if left < 5 {
            return false;
        }
        let w = number_of_two(body[at + 3], body[at + 4]);
        if w / 1024 % 4 != 0 {
            return false;
        }
        let n = usize::from(w % 4096);
        if left - 5 < n {
            return false;
        }
        self.found.places[number] = at as u16;
        if number == self.asked && self.item == 0 {
            self.found.walked.place = at;
        }
        self.descriptors(body, at + 5, at + 5 + n, number)
    }

    // Walks the descriptors of the loop `number` from `at` to `stop`, and then the entries from `stop` on.
    #[cycle(walk)]
    pub(crate) fn descriptors(&mut self, body: &[u8], at: usize, stop: usize, number: usize) -> bool
        requires { (length body.now ≤ 1020) × (at ≤ stop) × (stop ≤ length body.now) × (5 * number + 12 ≤ at) × (self.old.found.walked.descriptors ≤ at) }
        ensures { told_walk result self.new.found
            ≡ walk_descriptors self.old.asked self.old.item body.now at stop number (met_by self.old.found.walked) self.old.found.places }
    {
        let left = stop - at;
        if left == 0 {
            return self.entries(body, at, number + 1);
        }
        if left < 2 {
            return false;
        }
        let n = usize::from(body[at + 1]);
        if left - 2 < n {
            return false;
        }
        if number == self.asked {
            self.found.walked.descriptors += 1;
            if self.item == self.found.walked.descriptors {
                self.found.walked.place = at;
            }
        }
        self.descriptors(body, at + 2 + n, stop, number)
    }
}
