// A scenario by its letters.

// Five letters and a line end.
pub(crate) type Letters = [u8; 6];

// What is called: the driver with packets, CRC_32, or all of a PAT or a PMT, by index or in one call.
#[derive(Clone, Copy)]
pub(crate) enum What {
    Packets,
    Crc,
    Pat,
    PatAtOnce,
    Pmt,
    PmtAtOnce,
}

// How many of each 160 packets are wanted: 1, 9 or all.
#[derive(Clone, Copy)]
pub(crate) enum Share {
    Fewest,
    Few,
    All,
}

// How many numbers are used up before each filter: none, any up to 250, or so many that the numbers are 256 apart.
#[derive(Clone, Copy)]
pub(crate) enum Numbers {
    Next,
    Any,
    Wide,
}

#[derive(Clone, Copy)]
pub(crate) struct Scenario {
    pub(crate) what: What,
    pub(crate) share: Share,
    pub(crate) is_many: bool,
    pub(crate) numbers: Numbers,
    pub(crate) rounds: u8,
}

// The scenario of some letters, if they are one.
pub(crate) fn of(letters: Letters) -> Option<Scenario> {
    let [what, share, many, numbers, rounds, end] = letters;
    if (end != b'\n') & (end != 0) {
        return None;
    }
    Some(Scenario {
        what: what_of(what)?,
        share: share_of(share)?,
        is_many: is_many(many)?,
        numbers: numbers_of(numbers)?,
        rounds: digit_of(rounds)?,
    })
}

// No `TryFrom`: a letter has a meaning by its place alone.
fn what_of(letter: u8) -> Option<What> {
    match letter {
        b'p' => Some(What::Packets),
        b'c' => Some(What::Crc),
        b'a' => Some(What::Pat),
        b'b' => Some(What::PatAtOnce),
        b'm' => Some(What::Pmt),
        b'n' => Some(What::PmtAtOnce),
        _ => None,
    }
}

fn share_of(letter: u8) -> Option<Share> {
    match letter {
        b'0' => Some(Share::Fewest),
        b'1' => Some(Share::Few),
        b'2' => Some(Share::All),
        _ => None,
    }
}

// One filter on one PID, or 32 on 8 PIDs.
fn is_many(letter: u8) -> Option<bool> {
    match letter {
        b'1' => Some(false),
        b'3' => Some(true),
        _ => None,
    }
}

fn numbers_of(letter: u8) -> Option<Numbers> {
    match letter {
        b'n' => Some(Numbers::Next),
        b'a' => Some(Numbers::Any),
        b'w' => Some(Numbers::Wide),
        _ => None,
    }
}

fn digit_of(letter: u8) -> Option<u8> {
    match letter {
        b'0'..=b'9' => Some(letter - b'0'),
        _ => None,
    }
}
