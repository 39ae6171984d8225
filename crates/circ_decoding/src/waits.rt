// How many frames each row waits in the reader.

// Before C1.
pub const BEFORE_C1: [u8; 32] = [
    0, 1, 0, 1, 0, 1, 0, 1, 0, 1, 0, 1, 0, 1, 0, 1, 0, 1, 0, 1, 0, 1, 0, 1, 0, 1, 0, 1, 0, 1, 0, 1,
];

// Between C1 and C2.
pub const BETWEEN: [u8; 28] = [
    108, 104, 100, 96, 92, 88, 84, 80, 76, 72, 68, 64, 60, 56, 52, 48, 44, 40, 36, 32, 28, 24, 20,
    16, 12, 8, 4, 0,
];

// After C2. The last two rows carry the word's doubt, now and two frames later.
pub const AFTER_C2: [u8; 30] = [
    0, 0, 0, 0, 0, 0, 0, 0, 0, 0, 0, 0, 0, 0, 0, 0, 2, 2, 2, 2, 2, 2, 2, 2, 2, 2, 2, 2, 0, 2,
];
