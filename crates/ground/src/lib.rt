// What every layer says: the refusals of document 01 by name, definitions in specs/, and laws in proofs/.
#![tactic(auto)]

ghost use Rattle.ground.specs.Promises.{TellsNumber};

// Document 01, "Refusal numbers", and those of document 02's requests: a name for each number.
// Its number is told by a method and not by `From`, since a public call has a named promise; nobody prints a name, so there is no `Display`.
#[derive(Clone, Copy)]
pub enum Refusal {
    UnsoundState = 1,
    PacketSize = 2,
    BufferSize = 3,
    SyncByte = 4,
    TransportError = 5,
    NoPayloadNorField = 6,
    AdaptationLength = 7,
    ClockExtension = 8,
    AreaContradiction = 9,
    Scrambled = 10,
    PointerPastEnd = 11,
    PidRange = 12,
    NumbersUsedUp = 13,
    NoFreePlace = 14,
    NoFreeArea = 15,
    NotOpen = 16,
    NoTable = 17,
    SectionSize = 20,
    SyntaxBits = 21,
    WrongCrc = 22,
    OtherTable = 23,
    SectionNumber = 24,
    SectionLength = 25,
    InnerLength = 26,
    NoSuchEntry = 27,
    PesTooShort = 30,
    PesStart = 31,
    PesStreamId = 32,
    PesFixedBits = 33,
    PesStampFlags = 34,
    PesHeaderLength = 35,
    StampBits = 36,
    PesWithoutLength = 37,
    PesDsmcc = 38,
    ClockRange = 40,
    FieldTooShort = 41,
    TickOrder = 70,
    RateBytes = 80,
    RateTicks = 81,
    RateRecord = 82,
}

impl Refusal {
    // Its number in the documents.
    pub fn number(self) -> u8
        ensures { TellsNumber self result }
    {
        self as u8
    }
}
