//! Bytes that tests read, and expect to be written.

/// The scope `data` with id 1, from 100 to 300.
pub const ONE_SCOPE: [u8; 35] =
    *b"(\x01\0\0\0\x64\0\0\0\0\0\0\0\x04data\0\0\0\0\0\0\0\0)\x2c\x01\0\0\0\0\0\0";

/// The scope `data_top` from 100 to 400 with two children: `data_middle_0` from 200 to 300 and `data_middle_1` from 300
/// to 400.
pub const THREE_SCOPES: [u8; 127] = *b"(\x01\0\0\0\x64\0\0\0\0\0\0\0\x08data_top\x58\0\0\0\0\0\0\0\
(\x02\0\0\0\xc8\0\0\0\0\0\0\0\x0ddata_middle_0\0\0\0\0\0\0\0\0)\x2c\x01\0\0\0\0\0\0\
(\x03\0\0\0\x2c\x01\0\0\0\0\0\0\x0ddata_middle_1\0\0\0\0\0\0\0\0)\x90\x01\0\0\0\0\0\0\
)\x90\x01\0\0\0\0\0\0";

/// The packet that the Rust crate writes for frame 0, which has [`ONE_SCOPE`] on the thread `main`. The scope's bytes are at
/// `29..64`.
pub const PACKET: [u8; 75] = [
    80, 70, 68, 52, 7, 0, 0, 0, 0, 200, 251, 88, 2, 35, 1, 50, 0, 0, 0, 0, 1, 1, 200, 4, 109, 97,
    105, 110, 35, 40, 1, 0, 0, 0, 100, 0, 0, 0, 0, 0, 0, 0, 4, 100, 97, 116, 97, 0, 0, 0, 0, 0, 0,
    0, 0, 41, 44, 1, 0, 0, 0, 0, 0, 0, 1, 1, 200, 251, 88, 2, 1, 0, 0, 0, 0,
];

/// The file that the Rust crate writes for two frames of the thread `main`: the letters `PUF0`, [`PACKET`], and the packet of
/// frame 1, which has one scope `a` from 400 to 401.
pub const FILE: [u8; 155] = [
    80, 85, 70, 48, 80, 70, 68, 52, 7, 0, 0, 0, 0, 200, 251, 88, 2, 35, 1, 50, 0, 0, 0, 0, 1, 1,
    200, 4, 109, 97, 105, 110, 35, 40, 1, 0, 0, 0, 100, 0, 0, 0, 0, 0, 0, 0, 4, 100, 97, 116, 97,
    0, 0, 0, 0, 0, 0, 0, 0, 41, 44, 1, 0, 0, 0, 0, 0, 0, 1, 1, 200, 251, 88, 2, 1, 0, 0, 0, 0, 80,
    70, 68, 52, 9, 0, 0, 0, 1, 251, 32, 3, 251, 34, 3, 32, 1, 49, 0, 0, 0, 0, 1, 1, 200, 4, 109,
    97, 105, 110, 32, 40, 1, 0, 0, 0, 144, 1, 0, 0, 0, 0, 0, 0, 1, 97, 0, 0, 0, 0, 0, 0, 0, 0, 41,
    145, 1, 0, 0, 0, 0, 0, 0, 1, 1, 251, 32, 3, 251, 34, 3, 1, 0, 0, 0, 0,
];

/// The number of bytes that the letters `PUF0` and the first packet take up in [`FILE`].
pub const ONE_FRAME: usize = 79;
