//! What the operators give, worked out by a throwaway script from the rules in prose: two's complement in 32 bits, division towards zero,
//! remainders with the dividend's sign, shifts that fill with zeros.

/// The operands.
pub static VALUES: [u32; 5] = [0, 1, 0x7FFFFFFF, 0x80000000, 0xFFFFFFFF];

/// Each operator of two numbers with what it gives for each left operand and, for it, each right one. A quotient and a remainder by 0 are
/// entered as 0.
pub static OF_TWO: [(u8, [[u32; 5]; 5]); 18] = [
    (
        0x01,
        [
            [0, 1, 0x7FFFFFFF, 0x80000000, 0xFFFFFFFF],
            [1, 2, 0x80000000, 0x80000001, 0],
            [0x7FFFFFFF, 0x80000000, 0xFFFFFFFE, 0xFFFFFFFF, 0x7FFFFFFE],
            [0x80000000, 0x80000001, 0xFFFFFFFF, 0, 0x7FFFFFFF],
            [0xFFFFFFFF, 0, 0x7FFFFFFE, 0x7FFFFFFF, 0xFFFFFFFE],
        ],
    ),
    (
        0x02,
        [
            [0, 0xFFFFFFFF, 0x80000001, 0x80000000, 1],
            [1, 0, 0x80000002, 0x80000001, 2],
            [0x7FFFFFFF, 0x7FFFFFFE, 0, 0xFFFFFFFF, 0x80000000],
            [0x80000000, 0x7FFFFFFF, 1, 0, 0x80000001],
            [0xFFFFFFFF, 0xFFFFFFFE, 0x80000000, 0x7FFFFFFF, 0],
        ],
    ),
    (
        0x03,
        [
            [0, 0, 0, 0, 0],
            [0, 1, 0x7FFFFFFF, 0x80000000, 0xFFFFFFFF],
            [0, 0x7FFFFFFF, 1, 0x80000000, 0x80000001],
            [0, 0x80000000, 0x80000000, 0, 0x80000000],
            [0, 0xFFFFFFFF, 0x80000001, 0x80000000, 1],
        ],
    ),
    (
        0x04,
        [
            [0, 0, 0, 0, 0],
            [0, 1, 0, 0, 0xFFFFFFFF],
            [0, 0x7FFFFFFF, 1, 0, 0x80000001],
            [0, 0x80000000, 0xFFFFFFFF, 1, 0x80000000],
            [0, 0xFFFFFFFF, 0, 0, 1],
        ],
    ),
    (
        0x05,
        [
            [0, 0, 0, 0, 0],
            [0, 0, 1, 1, 0],
            [0, 0, 0, 0x7FFFFFFF, 0],
            [0, 0, 0xFFFFFFFF, 0, 0],
            [0, 0, 0xFFFFFFFF, 0xFFFFFFFF, 0],
        ],
    ),
    (
        0x07,
        [
            [0, 0, 0, 0, 0],
            [1, 2, 0, 0, 0],
            [0x7FFFFFFF, 0xFFFFFFFE, 0, 0, 0x3FFFFFFF],
            [0x80000000, 0, 0, 0, 0x40000000],
            [0xFFFFFFFF, 0xFFFFFFFE, 0, 0, 0x7FFFFFFF],
        ],
    ),
    (
        0x08,
        [
            [0, 0, 0, 0, 0],
            [0, 1, 1, 1, 1],
            [0, 1, 1, 1, 1],
            [0, 1, 1, 1, 1],
            [0, 1, 1, 1, 1],
        ],
    ),
    (
        0x09,
        [
            [0, 1, 1, 1, 1],
            [1, 1, 1, 1, 1],
            [1, 1, 1, 1, 1],
            [1, 1, 1, 1, 1],
            [1, 1, 1, 1, 1],
        ],
    ),
    (
        0x0A,
        [
            [0, 1, 1, 1, 1],
            [1, 0, 0, 0, 0],
            [1, 0, 0, 0, 0],
            [1, 0, 0, 0, 0],
            [1, 0, 0, 0, 0],
        ],
    ),
    (
        0x0C,
        [
            [1, 1, 1, 0, 0],
            [0, 1, 1, 0, 0],
            [0, 0, 1, 0, 0],
            [1, 1, 1, 1, 1],
            [1, 1, 1, 0, 1],
        ],
    ),
    (
        0x0D,
        [
            [1, 0, 0, 1, 1],
            [1, 1, 0, 1, 1],
            [1, 1, 1, 1, 1],
            [0, 0, 0, 1, 0],
            [0, 0, 0, 1, 1],
        ],
    ),
    (
        0x0E,
        [
            [0, 1, 1, 1, 1],
            [1, 0, 1, 1, 1],
            [1, 1, 0, 1, 1],
            [1, 1, 1, 0, 1],
            [1, 1, 1, 1, 0],
        ],
    ),
    (
        0x0F,
        [
            [0, 1, 1, 0, 0],
            [0, 0, 1, 0, 0],
            [0, 0, 0, 0, 0],
            [1, 1, 1, 0, 1],
            [1, 1, 1, 0, 0],
        ],
    ),
    (
        0x10,
        [
            [0, 0, 0, 1, 1],
            [1, 0, 0, 1, 1],
            [1, 1, 0, 1, 1],
            [0, 0, 0, 0, 0],
            [0, 0, 0, 1, 0],
        ],
    ),
    (
        0x11,
        [
            [1, 0, 0, 0, 0],
            [0, 1, 0, 0, 0],
            [0, 0, 1, 0, 0],
            [0, 0, 0, 1, 0],
            [0, 0, 0, 0, 1],
        ],
    ),
    (
        0x12,
        [
            [0, 0, 0, 0, 0],
            [0, 1, 1, 0, 1],
            [0, 1, 0x7FFFFFFF, 0, 0x7FFFFFFF],
            [0, 0, 0, 0x80000000, 0x80000000],
            [0, 1, 0x7FFFFFFF, 0x80000000, 0xFFFFFFFF],
        ],
    ),
    (
        0x13,
        [
            [0, 1, 0x7FFFFFFF, 0x80000000, 0xFFFFFFFF],
            [1, 1, 0x7FFFFFFF, 0x80000001, 0xFFFFFFFF],
            [0x7FFFFFFF, 0x7FFFFFFF, 0x7FFFFFFF, 0xFFFFFFFF, 0xFFFFFFFF],
            [0x80000000, 0x80000001, 0xFFFFFFFF, 0x80000000, 0xFFFFFFFF],
            [0xFFFFFFFF, 0xFFFFFFFF, 0xFFFFFFFF, 0xFFFFFFFF, 0xFFFFFFFF],
        ],
    ),
    (
        0x14,
        [
            [0, 1, 0x7FFFFFFF, 0x80000000, 0xFFFFFFFF],
            [1, 0, 0x7FFFFFFE, 0x80000001, 0xFFFFFFFE],
            [0x7FFFFFFF, 0x7FFFFFFE, 0, 0xFFFFFFFF, 0x80000000],
            [0x80000000, 0x80000001, 0xFFFFFFFF, 0, 0x7FFFFFFF],
            [0xFFFFFFFF, 0xFFFFFFFE, 0x80000000, 0x7FFFFFFF, 0],
        ],
    ),
];

/// Each operator of one number with what it gives.
pub static OF_ONE: [(u8, [u32; 5]); 3] = [
    (0x06, [0, 0xFFFFFFFF, 0x80000001, 0x80000000, 1]),
    (0x0B, [1, 0, 0, 0, 0]),
    (0x15, [0xFFFFFFFF, 0xFFFFFFFE, 0x80000000, 0x7FFFFFFF, 0]),
];

/// Each operand shifted by the counts -33 to 33.
pub static SHIFTS: [[u32; 67]; 5] = [
    [
        0, 0, 0, 0, 0, 0, 0, 0, 0, 0, 0, 0, 0, 0, 0, 0, 0, 0, 0, 0, 0, 0, 0, 0, 0, 0, 0, 0, 0, 0,
        0, 0, 0, 0, 0, 0, 0, 0, 0, 0, 0, 0, 0, 0, 0, 0, 0, 0, 0, 0, 0, 0, 0, 0, 0, 0, 0, 0, 0, 0,
        0, 0, 0, 0, 0, 0, 0,
    ],
    [
        0, 0, 0, 0, 0, 0, 0, 0, 0, 0, 0, 0, 0, 0, 0, 0, 0, 0, 0, 0, 0, 0, 0, 0, 0, 0, 0, 0, 0, 0,
        0, 0, 0, 1, 2, 4, 8, 0x10, 0x20, 0x40, 0x80, 0x100, 0x200, 0x400, 0x800, 0x1000, 0x2000,
        0x4000, 0x8000, 0x10000, 0x20000, 0x40000, 0x80000, 0x100000, 0x200000, 0x400000, 0x800000,
        0x1000000, 0x2000000, 0x4000000, 0x8000000, 0x10000000, 0x20000000, 0x40000000, 0x80000000,
        0, 0,
    ],
    [
        0, 0, 0, 1, 3, 7, 0xF, 0x1F, 0x3F, 0x7F, 0xFF, 0x1FF, 0x3FF, 0x7FF, 0xFFF, 0x1FFF, 0x3FFF,
        0x7FFF, 0xFFFF, 0x1FFFF, 0x3FFFF, 0x7FFFF, 0xFFFFF, 0x1FFFFF, 0x3FFFFF, 0x7FFFFF, 0xFFFFFF,
        0x1FFFFFF, 0x3FFFFFF, 0x7FFFFFF, 0xFFFFFFF, 0x1FFFFFFF, 0x3FFFFFFF, 0x7FFFFFFF, 0xFFFFFFFE,
        0xFFFFFFFC, 0xFFFFFFF8, 0xFFFFFFF0, 0xFFFFFFE0, 0xFFFFFFC0, 0xFFFFFF80, 0xFFFFFF00,
        0xFFFFFE00, 0xFFFFFC00, 0xFFFFF800, 0xFFFFF000, 0xFFFFE000, 0xFFFFC000, 0xFFFF8000,
        0xFFFF0000, 0xFFFE0000, 0xFFFC0000, 0xFFF80000, 0xFFF00000, 0xFFE00000, 0xFFC00000,
        0xFF800000, 0xFF000000, 0xFE000000, 0xFC000000, 0xF8000000, 0xF0000000, 0xE0000000,
        0xC0000000, 0x80000000, 0, 0,
    ],
    [
        0, 0, 1, 2, 4, 8, 0x10, 0x20, 0x40, 0x80, 0x100, 0x200, 0x400, 0x800, 0x1000, 0x2000,
        0x4000, 0x8000, 0x10000, 0x20000, 0x40000, 0x80000, 0x100000, 0x200000, 0x400000, 0x800000,
        0x1000000, 0x2000000, 0x4000000, 0x8000000, 0x10000000, 0x20000000, 0x40000000, 0x80000000,
        0, 0, 0, 0, 0, 0, 0, 0, 0, 0, 0, 0, 0, 0, 0, 0, 0, 0, 0, 0, 0, 0, 0, 0, 0, 0, 0, 0, 0, 0,
        0, 0, 0,
    ],
    [
        0, 0, 1, 3, 7, 0xF, 0x1F, 0x3F, 0x7F, 0xFF, 0x1FF, 0x3FF, 0x7FF, 0xFFF, 0x1FFF, 0x3FFF,
        0x7FFF, 0xFFFF, 0x1FFFF, 0x3FFFF, 0x7FFFF, 0xFFFFF, 0x1FFFFF, 0x3FFFFF, 0x7FFFFF, 0xFFFFFF,
        0x1FFFFFF, 0x3FFFFFF, 0x7FFFFFF, 0xFFFFFFF, 0x1FFFFFFF, 0x3FFFFFFF, 0x7FFFFFFF, 0xFFFFFFFF,
        0xFFFFFFFE, 0xFFFFFFFC, 0xFFFFFFF8, 0xFFFFFFF0, 0xFFFFFFE0, 0xFFFFFFC0, 0xFFFFFF80,
        0xFFFFFF00, 0xFFFFFE00, 0xFFFFFC00, 0xFFFFF800, 0xFFFFF000, 0xFFFFE000, 0xFFFFC000,
        0xFFFF8000, 0xFFFF0000, 0xFFFE0000, 0xFFFC0000, 0xFFF80000, 0xFFF00000, 0xFFE00000,
        0xFFC00000, 0xFF800000, 0xFF000000, 0xFE000000, 0xFC000000, 0xF8000000, 0xF0000000,
        0xE0000000, 0xC0000000, 0x80000000, 0, 0,
    ],
];
