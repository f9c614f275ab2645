//! The rows of the files whose places the tests name.

use dex_samples::{NOTHING, Rows};

/// The rows of an accepted file of 504 bytes. It has no class, so no row is used by one. What stands where:
/// - string_ids 112, 116, .. 152; type_ids 156, 160, 164, 168, 172;
/// - proto_ids 176, 188, 200, 212, 224, 236: the return type 4 bytes on, the place of the parameters 8 bytes on;
/// - field_ids 248, 256, 264, 272: the type 2 bytes on, the name 4 bytes on;
/// - method_ids 280, 288, 296, 304: the proto 2 bytes on, the name 4 bytes on;
/// - type_lists 312, 320, 328, 336, each a size and its types 4 bytes on; the section ends at 344;
/// - strings 344, 352, 355, 360, 365, 368, 372, 377, 381, 385, 388, and a byte 00 at 391; the section ends at 392;
/// - the map 392: where its entry says that the strings begin, 488.
pub static NAMED: Rows<'static> = Rows {
    strings: &[
        b"\x06<init>\0",
        b"\x01I\0",
        b"\x03LA;\0",
        b"\x03LB;\0",
        b"\x01V\0",
        b"\x02VI\0",
        b"\x03VIL\0",
        b"\x02VL\0",
        b"\x02[I\0",
        b"\x01a\0",
        b"\x01b\0",
    ],
    types: &[1, 2, 3, 4, 8],
    lists: &[&[0], &[0, 4], &[1], &[2]],
    protos: &[
        (1, 0, None),
        (4, 3, None),
        (5, 3, Some(0)),
        (6, 3, Some(1)),
        (7, 3, Some(2)),
        (7, 3, Some(3)),
    ],
    fields: &[(1, 0, 9), (1, 0, 10), (1, 1, 10), (2, 4, 9)],
    methods: &[(1, 1, 0), (1, 0, 9), (1, 2, 9), (4, 0, 9)],
    ..NOTHING
};

/// No rows. The map stands from 0x70 to 0x98, and its third entry, at 0x8c, says where the two last bytes of the data
/// section are.
pub static ENDED: Rows<'static> = Rows {
    arrays: &[0, 0],
    ..NOTHING
};

/// Strings at 112, types at 120, and the type_lists from 128 to 156:
/// 01 00 00 00 00 00 (00 00) | 02 00 00 00 00 00 01 00 | 01 00 00 00 02 00 (00 00) | 00 00 00 00.
pub static LISTS: Rows<'static> = Rows {
    strings: &[b"\x01I\0", b"\x01V\0"],
    types: &[0, 1],
    lists: &[&[0], &[0, 1], &[2], &[]],
    ..NOTHING
};

/// Four string rows stand at 112, two type rows at 128 and two proto rows at 136 and 148.
pub static TWO_PROTOS: Rows<'static> = Rows {
    strings: &[b"\x01I\0", b"\x02II\0", b"\x01V\0", b"\x02VI\0"],
    types: &[0, 2],
    lists: &[&[0], &[]],
    ..NOTHING
};

/// The method `(V)V`, with the letters of its types as shorty. Strings stand at 112 and 116, the type at 120.
pub static OF_VOID: Rows<'static> = Rows {
    strings: &[b"\x01V\0", b"\x02VV\0"],
    types: &[0],
    lists: &[&[0]],
    protos: &[(1, 0, Some(0))],
    ..NOTHING
};

/// Types `LA;` and `LB;`, and two lists: of `LA;` at 192, of `LB;` twice at 200. Two class rows stand at 128 and 160.
pub static TWO_CLASSES: Rows<'static> = Rows {
    strings: &[b"\x03LA;\0", b"\x03LB;\0"],
    types: &[0, 1],
    lists: &[&[0], &[1, 1]],
    ..NOTHING
};

/// A class `LA;` with an abstract method `m` of the one prototype; a list of no type.
pub static PARAMETERLESS: Rows<'static> = Rows {
    strings: &[b"\x03LA;\0", b"\x01V\0", b"\x01m\0"],
    types: &[0, 1],
    lists: &[&[]],
    methods: &[(0, 0, 2)],
    classes: &[[0, 1, 0xffffffff, 0, 0xffffffff, 0, 199, 0]],
    class_data: &[0, 0, 0, 1, 0, 1, 0],
    ..NOTHING
};

/// A field `a` and a method `a()V` of `LA;`, whose class row stands at 192 and its class data at 243, and of `LB;`: the
/// rows 0 and 1 of fields and of methods.
pub static TWO_OF_EACH: Rows<'static> = Rows {
    strings: &[
        b"\x01I\0",
        b"\x03LA;\0",
        b"\x03LB;\0",
        b"\x01V\0",
        b"\x01a\0",
    ],
    types: &[0, 1, 2, 3],
    protos: &[(3, 3, None)],
    fields: &[(1, 0, 4), (2, 0, 4)],
    methods: &[(1, 0, 4), (2, 0, 4)],
    classes: &[[1, 1, 0xffffffff, 0, 0xffffffff, 0, 243, 0]],
    ..NOTHING
};

/// The class `LA;` with methods `a()V` and `b()V`. The code item, from 196 to 227, is return-void twice with a try whose
/// list of handlers, at 224, names an address that isn't there. The class data stands at 241.
pub static TWO_METHODS: Rows<'static> = Rows {
    strings: &[b"\x03LA;\0", b"\x01V\0", b"\x01a\0", b"\x01b\0"],
    types: &[0, 1],
    protos: &[(1, 1, None)],
    methods: &[(0, 0, 2), (0, 0, 3)],
    classes: &[[0, 1, 0xffffffff, 0, 0xffffffff, 0, 241, 0]],
    codes: &[
        1, 0, 0, 0, 0, 0, 1, 0, 0, 0, 0, 0, 2, 0, 0, 0, 0x0e, 0, 0x0e, 0, 0, 0, 0, 0, 1, 0, 1, 0,
        1, 0, 2,
    ],
    ..NOTHING
};

/// Two methods of one body, of which the second is 4294967295 rows after the first. The class row stands at 172.
pub static FAR_APART: Rows<'static> = Rows {
    strings: &[
        b"\x03LA;\0",
        b"\x12Ljava/lang/Object;\0",
        b"\x01V\0",
        b"\x01m\0",
        b"\x01n\0",
    ],
    types: &[0, 1, 2],
    protos: &[(2, 2, None)],
    methods: &[(0, 0, 3), (0, 0, 4)],
    classes: &[[0, 1, 1, 0, 0xffffffff, 0, 256, 0]],
    codes: &[1, 0, 0, 0, 0, 0, 0, 0, 0, 0, 0, 0, 1, 0, 0, 0, 0x0e, 0],
    class_data: &[
        0, 0, 2, 0, 1, 9, 0xcc, 1, 0xff, 0xff, 0xff, 0xff, 0x0f, 9, 0xcc, 1,
    ],
    ..NOTHING
};

/// The rows of the file of one class.
pub static OF_ONE_CLASS: Rows<'static> = Rows {
    strings: &[
        b"\x03LA;\0",
        b"\x12Ljava/lang/Object;\0",
        b"\x01V\0",
        b"\x01m\0",
    ],
    types: &[0, 1, 2],
    protos: &[(2, 2, None)],
    methods: &[(0, 0, 3)],
    classes: &[[0, 1, 1, 0, 0xffffffff, 0, 0xf1, 0]],
    codes: &[1, 0, 0, 0, 0, 0, 0, 0, 0, 0, 0, 0, 1, 0, 0, 0, 0x0e, 0],
    class_data: &[0, 0, 1, 0, 0, 9, 0xc0, 1],
    ..NOTHING
};

/// The file of one class with a fifth string that nothing uses, whose count of units stands at 245, and with debugging
/// information, which isn't looked at.
pub static SPARE: Rows<'static> = Rows {
    strings: &[
        b"\x03LA;\0",
        b"\x12Ljava/lang/Object;\0",
        b"\x01V\0",
        b"\x01m\0",
        b"\x06~~D8{}\0",
    ],
    types: &[0, 1, 2],
    protos: &[(2, 2, None)],
    methods: &[(0, 0, 3)],
    classes: &[[0, 1, 1, 0, 0xffffffff, 0, 253, 0]],
    codes: &[1, 0, 0, 0, 0, 0, 0, 0, 7, 0, 0, 0, 1, 0, 0, 0, 0x0e, 0],
    class_data: &[0, 0, 1, 0, 0, 9, 0xc4, 1],
    ..NOTHING
};

/// A class `LA;` with one static field, `x` of type int. Its row stands at 140, the array at 304.
pub static ONE_FIELD: Rows<'static> = Rows {
    strings: &[b"\x01I\0", b"\x03LA;\0", b"\x01x\0"],
    types: &[0, 1],
    fields: &[(1, 0, 2)],
    classes: &[[1, 1, 0xffffffff, 0, 0xffffffff, 0, 183, 304]],
    class_data: &[1, 0, 0, 0, 0, 8],
    ..NOTHING
};
