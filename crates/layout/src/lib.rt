// The layout of the lent words stands in specs/, its laws in proofs/.
#![tactic(auto)]

// The words of the header, in front of the records.
pub const HEADER_WORDS: usize = 256;
