//! The rows of the files that are stripped.

use dex_samples::{NOTHING, Rows};

const SPELLED: [&[u8]; 5] = [
    b"\x03LA;\0",
    b"\x12Ljava/lang/Object;\0",
    b"\x01V\0",
    b"\x01m\0",
    b"\x06~~D8{}\0",
];

/// `ONE_CLASS` with a fifth string that nothing uses, whose count of units stands at 245, and with debugging
/// information after the class data, at 261.
pub const SPARE: Rows<'static> = Rows {
    strings: &SPELLED,
    types: &[0, 1, 2],
    protos: &[(2, 2, None)],
    methods: &[(0, 0, 3)],
    classes: &[[0, 1, 1, 0, 0xffffffff, 0, 253, 0]],
    codes: &[1, 0, 0, 0, 0, 0, 0, 0, 5, 1, 0, 0, 1, 0, 0, 0, 0x0e, 0],
    class_data: &[0, 0, 1, 0, 0, 9, 0xc4, 1, 0, 0, 7, 0],
    ..NOTHING
};

/// `ONE_CLASS` with a type_list of no type for the parameters of its prototype.
pub static EMPTY_LIST: Rows<'static> = Rows {
    strings: &[
        b"\x03LA;\0",
        b"\x12Ljava/lang/Object;\0",
        b"\x01V\0",
        b"\x01m\0",
    ],
    lists: &[&[]],
    protos: &[(2, 2, Some(0))],
    classes: &[[0, 1, 1, 0, 0xffffffff, 0, 245, 0]],
    codes: &[1, 0, 0, 0, 0, 0, 0, 0, 0, 0, 0, 0, 1, 0, 0, 0, 0x0e, 0],
    class_data: &[0, 0, 1, 0, 0, 9, 0xc4, 1],
    ..SPARE
};

/// `ONE_CLASS` with a second method, `n()V`, and two code items of equal bytes, in 412 bytes. The map, at 288, counts
/// one of them.
pub static TWO_ITEMS: Rows<'static> = Rows {
    strings: &[
        b"\x03LA;\0",
        b"\x12Ljava/lang/Object;\0",
        b"\x01V\0",
        b"\x01m\0",
        b"\x01n\0",
    ],
    types: &[0, 1, 2],
    protos: &[(2, 2, None)],
    methods: &[(0, 0, 3), (0, 0, 4)],
    classes: &[[0, 1, 1, 0, 0xffffffff, 0, 276, 0]],
    codes: &[
        1, 0, 0, 0, 0, 0, 0, 0, 0, 0, 0, 0, 1, 0, 0, 0, 0x0e, 0, 0, 0, 1, 0, 0, 0, 0, 0, 0, 0, 0,
        0, 0, 0, 1, 0, 0, 0, 0x0e, 0,
    ],
    class_data: &[0, 0, 2, 0, 0, 9, 0xcc, 1, 1, 9, 0xe0, 1],
    ..NOTHING
};

/// Two classes, of two static fields and of one, with one array of two values, the last five bytes of the file.
pub static ONE_ARRAY: Rows<'static> = Rows {
    strings: &[
        b"\x01I\0",
        b"\x03LA;\0",
        b"\x03LB;\0",
        b"\x01a\0",
        b"\x01b\0",
    ],
    types: &[0, 1, 2],
    fields: &[(1, 0, 3), (1, 0, 4), (2, 0, 3)],
    // 112 + 20 + 12 + 24 = 168: the class rows; 168 + 64 = 232: the texts, of 3 + 5 + 5 + 3 + 3 = 19 bytes; class
    // data at 251
    classes: &[
        [1, 1, 0xffffffff, 0, 0xffffffff, 0, 251, 0],
        [2, 1, 0xffffffff, 0, 0xffffffff, 0, 259, 0],
    ],
    class_data: &[2, 0, 0, 0, 0, 9, 1, 9, 1, 0, 0, 0, 2, 9],
    arrays: &[2, 0x04, 7, 0x04, 9],
    ..NOTHING
};

/// One list of `I`, for the parameters of a prototype and for the interfaces of a class.
pub static ONE_LIST: Rows<'static> = Rows {
    strings: &[b"\x01I\0", b"\x03LA;\0", b"\x01V\0", b"\x02VI\0"],
    types: &[0, 1, 2],
    lists: &[&[0]],
    protos: &[(3, 2, Some(0))],
    // 112 + 16 + 12 + 12 = 152: the class row; the list at 184
    classes: &[[1, 1, 0xffffffff, 184, 0xffffffff, 0, 0, 0]],
    ..NOTHING
};
