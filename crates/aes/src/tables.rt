//! The tables of `tower`. Its head says what the letters stand for: the field of sixteen elements,
//! the tower over it with its element t, the map f of bytes into the tower, and the places I and J.
//!
//! `tools/aes_tables.py` derives each table from these definitions, and compares. No proof rests on
//! that script: `proofs/EachByte.antt` computes at all 256 bytes what each pair of tables gives.

/// The tables of a map of bytes that is linear over their bits: what it makes of a byte is the sum
/// of what it makes of the byte's two halves.
#[derive(Clone, Copy)]
pub(crate) struct HalfTables {
    /// Entry n is what the map makes of the byte n.
    pub low: [u8; 16],
    /// Entry n is what it makes of the byte 16 n.
    pub high: [u8; 16],
}

/// The tables of a linear map of the inverse in the tower: what it makes of an inverse is the sum
/// of the entries at the two places that stand for the inverse.
#[derive(Clone, Copy)]
pub(crate) struct InverseTables {
    /// Entry p is what the map makes of (14 + t) / p; entry 0 is never looked up.
    pub by_i: [u8; 16],
    /// Entry p is what it makes of (15 + t) / p; entry 0 is never looked up.
    pub by_j: [u8; 16],
}

/// The bits of half a byte.
pub(crate) const HALF: u8 = 4;

/// The bits of the lower half of a byte.
pub(crate) const LOWER_HALF: u8 = 15;

/// The constant of SubBytes, 63 in hexadecimal.
pub(crate) const AFFINE_CONSTANT: u8 = 99;

/// The constant of InvSubBytes, 05 in hexadecimal, as a byte of the tower: 7 f(5).
pub(crate) const UNAFFINE_CONSTANT: u8 = 232;

/// 1 over each element of the field of sixteen. 1 over 0 is no element, for which 128 stands.
pub(crate) const INVERSES: [u8; 16] = [128, 1, 8, 13, 15, 6, 5, 14, 2, 12, 11, 10, 9, 3, 7, 4];

/// 7 over each element.
pub(crate) const SEVEN_OVER: [u8; 16] = [128, 7, 11, 15, 6, 10, 4, 1, 9, 8, 5, 2, 12, 14, 13, 3];

/// A byte b into the tower: 7 f(b).
pub(crate) const INTO_TOWER: HalfTables = HalfTables {
    low: [
        0, 112, 42, 90, 152, 232, 178, 194, 8, 120, 34, 82, 144, 224, 186, 202,
    ],
    high: [
        0, 77, 124, 49, 125, 48, 1, 76, 129, 204, 253, 176, 252, 177, 128, 205,
    ],
};

/// A byte out of the tower: b of 7 f(b).
pub(crate) const OUT_OF_TOWER: HalfTables = HalfTables {
    low: [
        0, 96, 182, 214, 41, 73, 159, 255, 8, 104, 190, 222, 33, 65, 151, 247,
    ],
    high: [
        0, 236, 188, 80, 81, 189, 237, 1, 224, 12, 92, 176, 177, 93, 13, 225,
    ],
};

/// SubBytes but for its constant: of 7 f(b), the affine map but for its constant of 1/b.
pub(crate) const SUBSTITUTED: InverseTables = InverseTables {
    by_i: [
        0, 199, 189, 111, 23, 109, 210, 208, 120, 168, 2, 197, 122, 191, 170, 21,
    ],
    by_j: [
        0, 106, 187, 95, 165, 116, 228, 207, 250, 53, 43, 65, 209, 144, 30, 142,
    ],
};

/// The same taken into the tower.
pub(crate) const SUBSTITUTED_IN_TOWER: InverseTables = InverseTables {
    by_i: [
        0, 62, 80, 203, 143, 225, 155, 177, 68, 245, 42, 20, 110, 122, 223, 165,
    ],
    by_j: [
        0, 35, 226, 250, 21, 212, 24, 54, 239, 217, 46, 13, 193, 204, 247, 59,
    ],
};

/// Its product with 2 in the field of AES, taken into the tower.
pub(crate) const DOUBLED_IN_TOWER: InverseTables = InverseTables {
    by_i: [
        0, 36, 113, 11, 198, 147, 122, 226, 205, 47, 152, 188, 85, 233, 183, 94,
    ],
    by_j: [
        0, 41, 225, 10, 64, 136, 235, 105, 74, 35, 130, 171, 200, 99, 161, 194,
    ],
};

/// The inverse of the affine map, but for its constant, of a byte b, taken into the tower.
pub(crate) const UNAFFINE: HalfTables = HalfTables {
    low: [0, 95, 84, 11, 4, 91, 80, 15, 26, 69, 78, 17, 30, 65, 74, 21],
    high: [
        0, 101, 5, 96, 230, 131, 227, 134, 148, 241, 145, 244, 114, 23, 119, 18,
    ],
};

/// `UNAFFINE` of 14 times b.
pub(crate) const UNAFFINE_14: HalfTables = HalfTables {
    low: [
        0, 74, 123, 49, 122, 48, 1, 75, 134, 204, 253, 183, 252, 182, 135, 205,
    ],
    high: [
        0, 119, 6, 113, 208, 167, 214, 161, 185, 206, 191, 200, 105, 30, 111, 24,
    ],
};

/// `UNAFFINE` of 11 times b.
pub(crate) const UNAFFINE_11: HalfTables = HalfTables {
    low: [
        0, 17, 53, 36, 27, 10, 46, 63, 153, 136, 172, 189, 130, 147, 183, 166,
    ],
    high: [
        0, 244, 151, 99, 66, 182, 213, 33, 29, 233, 138, 126, 95, 171, 200, 60,
    ],
};

/// `UNAFFINE` of 13 times b.
pub(crate) const UNAFFINE_13: HalfTables = HalfTables {
    low: [
        0, 65, 43, 106, 100, 37, 79, 14, 249, 184, 210, 147, 157, 220, 182, 247,
    ],
    high: [
        0, 23, 229, 242, 162, 181, 71, 80, 89, 78, 188, 171, 251, 236, 30, 9,
    ],
};

/// `UNAFFINE` of 9 times b.
pub(crate) const UNAFFINE_9: HalfTables = HalfTables {
    low: [
        0, 69, 49, 116, 1, 68, 48, 117, 252, 185, 205, 136, 253, 184, 204, 137,
    ],
    high: [
        0, 241, 113, 128, 214, 39, 167, 86, 105, 152, 24, 233, 191, 78, 206, 63,
    ],
};

/// InvSubBytes, once the affine map is undone: of 7 f(b), the byte 1/b.
pub(crate) const UNSUBSTITUTED: InverseTables = InverseTables {
    by_i: [
        0, 64, 249, 126, 83, 234, 135, 19, 45, 62, 148, 212, 185, 109, 170, 199,
    ],
    by_j: [
        0, 29, 68, 147, 15, 86, 215, 18, 156, 142, 197, 216, 89, 129, 75, 202,
    ],
};

/// `UNAFFINE` of 14 times that byte.
pub(crate) const UNSUBSTITUTED_14: InverseTables = InverseTables {
    by_i: [
        0, 208, 212, 38, 150, 146, 242, 70, 176, 246, 180, 100, 4, 96, 66, 34,
    ],
    by_j: [
        0, 193, 170, 255, 205, 166, 85, 12, 50, 62, 89, 152, 107, 243, 103, 148,
    ],
};

/// `UNAFFINE` of 11 times that byte.
pub(crate) const UNSUBSTITUTED_11: InverseTables = InverseTables {
    by_i: [
        0, 66, 180, 150, 146, 100, 34, 208, 4, 212, 242, 176, 246, 70, 38, 96,
    ],
    by_j: [
        0, 103, 89, 205, 166, 152, 148, 193, 107, 170, 85, 50, 62, 12, 255, 243,
    ],
};

/// `UNAFFINE` of 13 times that byte.
pub(crate) const UNSUBSTITUTED_13: InverseTables = InverseTables {
    by_i: [
        0, 162, 177, 230, 223, 204, 87, 125, 57, 68, 42, 136, 19, 155, 110, 245,
    ],
    by_j: [
        0, 203, 198, 36, 247, 250, 226, 60, 211, 239, 222, 21, 13, 24, 49, 41,
    ],
};

/// `UNAFFINE` of 9 times that byte.
pub(crate) const UNSUBSTITUTED_9: InverseTables = InverseTables {
    by_i: [
        0, 214, 134, 154, 83, 3, 28, 133, 201, 76, 153, 79, 80, 31, 213, 202,
    ],
    by_j: [
        0, 73, 215, 236, 137, 23, 59, 192, 101, 165, 251, 178, 158, 44, 94, 114,
    ],
};

// Row r of a mixed column is the sum of 2 times its row r, 3 times the next row, and the second and
// the third row after it, where row 0 follows row 3. For each place of what MixColumns gives, these
// are the places where the bytes of those four rows stand before ShiftRows.
pub(crate) const SHIFTED_SAME_ROW: [usize; 16] = [
    0, 5, 10, 15, 4, 9, 14, 3, 8, 13, 2, 7, 12, 1, 6, 11,
];

pub(crate) const SHIFTED_NEXT_ROW: [usize; 16] = [
    5, 10, 15, 0, 9, 14, 3, 4, 13, 2, 7, 8, 1, 6, 11, 12,
];

pub(crate) const SHIFTED_SECOND_ROW: [usize; 16] = [
    10, 15, 0, 5, 14, 3, 4, 9, 2, 7, 8, 13, 6, 11, 12, 1,
];

pub(crate) const SHIFTED_THIRD_ROW: [usize; 16] = [
    15, 0, 5, 10, 3, 4, 9, 14, 7, 8, 13, 2, 11, 12, 1, 6,
];

// Row r of an unmixed column is the sum of 14, 11, 13 and 9 times those rows. For each place of
// what InvShiftRows gives, these are the places of the four rows before InvMixColumns.
pub(crate) const UNSHIFTED_SAME_ROW: [usize; 16] = [
    0, 13, 10, 7, 4, 1, 14, 11, 8, 5, 2, 15, 12, 9, 6, 3,
];

pub(crate) const UNSHIFTED_NEXT_ROW: [usize; 16] = [
    1, 14, 11, 4, 5, 2, 15, 8, 9, 6, 3, 12, 13, 10, 7, 0,
];

pub(crate) const UNSHIFTED_SECOND_ROW: [usize; 16] = [
    2, 15, 8, 5, 6, 3, 12, 9, 10, 7, 0, 13, 14, 11, 4, 1,
];

pub(crate) const UNSHIFTED_THIRD_ROW: [usize; 16] = [
    3, 12, 9, 6, 7, 0, 13, 10, 11, 4, 1, 14, 15, 8, 5, 2,
];
