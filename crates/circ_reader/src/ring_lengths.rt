// How long the rings are, stage after stage: one for each row that waits, and each has a place.
pub const RING_LENGTHS: [u8; 56] = [
    1, 1, 1, 1, 1, 1, 1, 1, 1, 1, 1, 1, 1, 1, 1, 1, 108, 104, 100, 96, 92, 88, 84, 80, 76, 72, 68,
    64, 60, 56, 52, 48, 44, 40, 36, 32, 28, 24, 20, 16, 12, 8, 4, 2, 2, 2, 2, 2, 2, 2, 2, 2, 2, 2,
    2, 2,
];
