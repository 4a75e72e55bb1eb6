// The files that are looked up in.

// Every header, with discard and bypass.
pub(crate) const EVERYTHING: [u8; 33] = [
    0, 31, 1, 0, 1, 0, 0, 0, 0, 255, 255, 255, 255, 0, 0, 0, 0, 255, 255, 255, 255, 0, 0, 255, 255,
    0, 0, 255, 255, 0, 255, 0, 3,
];

// Local port 80 with protocol 6, with bypass; then every header, with discard.
pub(crate) const WEB_FIRST: [u8; 61] = [
    0, 59, 1, 0, 2, 0, 0, 0, 0, 255, 255, 255, 255, 0, 0, 0, 0, 255, 255, 255, 255, 0, 80, 0, 80,
    0, 0, 255, 255, 6, 6, 0, 2, 0, 0, 0, 0, 255, 255, 255, 255, 0, 0, 0, 0, 255, 255, 255, 255, 0,
    0, 255, 255, 0, 0, 255, 255, 0, 255, 0, 1,
];

// Protocols from 5 to 4, so the entry is crossed.
pub(crate) const CROSSED: [u8; 33] = [
    0, 31, 1, 0, 1, 0, 0, 0, 0, 255, 255, 255, 255, 0, 0, 0, 0, 255, 255, 255, 255, 0, 0, 255, 255,
    0, 0, 255, 255, 5, 4, 0, 1,
];

// Of version 2: every outbound header, with bypass. The record has 30 bytes.
pub(crate) const OUTBOUND: [u8; 35] = [
    0, 33, 2, 0, 1, 0, 0, 0, 0, 255, 255, 255, 255, 0, 0, 0, 0, 255, 255, 255, 255, 0, 0, 255, 255,
    0, 0, 255, 255, 0, 255, 1, 1, 0, 2,
];
