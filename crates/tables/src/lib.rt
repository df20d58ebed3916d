// PAT and PMT sections (document 01, Tables): headers, entries and descriptors of a lent section, or its refusal. The face of the crates that read them.
#![tactic(auto)]

pub use ground::Refusal;
pub use pat::{MOST_PROGRAMS, PatHeader, Program, pat_entries, pat_entry, pat_header};
pub use pmt::{
    MOST_STREAMS, Place, PmtHeader, PmtListed, Stream, entry_descriptor, entry_descriptor_bytes,
    next_descriptor, pmt_entries, pmt_entry, pmt_header, program_descriptor,
    program_descriptor_bytes,
};
pub use psi::Head;
