// The small tables of the syntax. `specs/Small.antt` says which each is.

// Full bandwidth channels by acmod.
pub const NFCHANS: [u8; 8] = [2, 1, 2, 3, 3, 4, 4, 5];

// Strategies of six blocks for each code.
pub const FRAME_EXPSTR: [u8; 192] = [
    1, 0, 0, 0, 0, 0, 1, 0, 0, 0, 0, 3, 1, 0, 0, 0, 2, 0, 1, 0, 0, 0, 3, 3, 2, 0, 0, 2, 0, 0, 2, 0,
    0, 2, 0, 3, 2, 0, 0, 3, 2, 0, 2, 0, 0, 3, 3, 3, 2, 0, 1, 0, 0, 0, 2, 0, 2, 0, 0, 3, 2, 0, 2, 0,
    2, 0, 2, 0, 2, 0, 3, 3, 2, 0, 3, 2, 0, 0, 2, 0, 3, 2, 0, 3, 2, 0, 3, 3, 2, 0, 2, 0, 3, 3, 3, 3,
    3, 1, 0, 0, 0, 0, 3, 1, 0, 0, 0, 3, 3, 2, 0, 0, 2, 0, 3, 2, 0, 0, 3, 3, 3, 2, 0, 2, 0, 0, 3, 2,
    0, 2, 0, 3, 3, 2, 0, 3, 2, 0, 3, 2, 0, 3, 3, 3, 3, 3, 1, 0, 0, 0, 3, 3, 2, 0, 0, 3, 3, 3, 2, 0,
    2, 0, 3, 3, 2, 0, 3, 3, 3, 3, 3, 2, 0, 0, 3, 3, 3, 2, 0, 3, 3, 3, 3, 3, 2, 0, 3, 3, 3, 3, 3, 3,
];

// Default banding of coupling.
pub const DEF_CPL_BNDSTRC: [u8; 18] = [0, 0, 0, 0, 0, 0, 0, 0, 1, 0, 1, 1, 0, 1, 1, 1, 1, 1];

// Default banding of spectral extension.
pub const DEF_SPX_BNDSTRC: [u8; 17] = [0, 0, 0, 0, 0, 0, 0, 0, 1, 0, 1, 0, 1, 0, 1, 0, 1];
