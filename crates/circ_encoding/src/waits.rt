// How many frames each row waits in the writer.

// Before C2.
pub const BEFORE_C2: [u8; 12] = [2, 2, 2, 2, 2, 2, 2, 2, 2, 2, 2, 2];

// Between C2 and C1.
pub const BETWEEN: [u8; 28] = [
    0, 4, 8, 12, 16, 20, 24, 28, 32, 36, 40, 44, 48, 52, 56, 60, 64, 68, 72, 76, 80, 84, 88, 92,
    96, 100, 104, 108,
];

// After C1.
pub const AFTER_C1: [u8; 32] = [
    1, 0, 1, 0, 1, 0, 1, 0, 1, 0, 1, 0, 1, 0, 1, 0, 1, 0, 1, 0, 1, 0, 1, 0, 1, 0, 1, 0, 1, 0, 1, 0,
];
