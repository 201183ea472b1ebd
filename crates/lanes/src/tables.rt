// The table of the masks. Written by the program `tables` of second/; proofs/Entries has its rule, by a test over the whole table.

// Which bits of byte c of a block are exchanged with the partner lane, at 5 e + c for the set of places named e, which has 2^s for place s.
pub const MASKS: [u8; 80] = [
    0, 0, 0, 0, 0, 255, 192, 0, 0, 0, 0, 63, 240, 0, 0, 255, 255, 240, 0, 0, 0, 0, 15, 252, 0, 255,
    192, 15, 252, 0, 0, 63, 255, 252, 0, 255, 255, 255, 252, 0, 0, 0, 0, 3, 255, 255, 192, 0, 3,
    255, 0, 63, 240, 3, 255, 255, 255, 240, 3, 255, 0, 0, 15, 255, 255, 255, 192, 15, 255, 255, 0,
    63, 255, 255, 255, 255, 255, 255, 255, 255,
];
