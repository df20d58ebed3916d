// What a stream_id says of its PES packets.
ghost use Rattle.std.specs.Prelude.{◌≡◌};
ghost use Rattle.pes.specs.Stream.{is_dsmcc, is_bare, is_endless};

// Whether the id is the DSM-CC stream's, which is refused.
pub(crate) fn is_dsmcc(id: u8) -> bool
    ensures { result ≡ is_dsmcc id }
{
    id == 0xF2
}

// Whether the id has no optional header, as document 01 lists them.
pub(crate) fn is_bare(id: u8) -> bool
    ensures { result ≡ is_bare id }
{
    matches!(id, 0xBC | 0xBE | 0xBF | 0xF0 | 0xF1 | 0xF8 | 0xFF)
}

// Whether the packet has no length and the id is none that may do without.
pub(crate) fn is_endless(id: u8, size: u16) -> bool
    ensures { result ≡ is_endless id size }
{
    (size == 0) & !((0xE0 <= id) & (id <= 0xEF))
}
