// Document 01, "Numbers that bound it" and "Length".
// "Envelope at most 1,048,576 bytes."
pub const ENVELOPE_MOST: usize = 1048576;

// "16 envelopes, the base counted."
pub const ENVELOPES_MOST: u32 = 16;

// "agent level 8".
pub const LEVEL_MOST: u32 = 8;

// "The long form is used exactly if the envelope in the short form would pass 65,535 bytes."
pub const SHORT_MOST: usize = 65535;

// Identifier and length of an envelope, in the short form and in the long one.
pub const SHORT_HEAD: usize = 3;

pub const LONG_HEAD: usize = 7;

// "The reader then borrows sixteen words more."
pub const WORDS_BORROWED: usize = 16;
