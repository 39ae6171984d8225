// How long the rings are, stage after stage: one for each row that waits, and each has a place.
pub const RING_LENGTHS: [u8; 55] = [
    2, 2, 2, 2, 2, 2, 2, 2, 2, 2, 2, 2, 4, 8, 12, 16, 20, 24, 28, 32, 36, 40, 44, 48, 52, 56, 60,
    64, 68, 72, 76, 80, 84, 88, 92, 96, 100, 104, 108, 1, 1, 1, 1, 1, 1, 1, 1, 1, 1, 1, 1, 1, 1, 1,
    1,
];
