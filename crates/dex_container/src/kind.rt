//! The kinds of items that the map names, by the page's names without their prefix `TYPE_`.
//! Page: "Dalvik Executable format", "map_list", Type Codes.

pub const HEADER_ITEM: u16 = 0x0000;

pub const STRING_ID_ITEM: u16 = 0x0001;

pub const TYPE_ID_ITEM: u16 = 0x0002;

pub const PROTO_ID_ITEM: u16 = 0x0003;

pub const FIELD_ID_ITEM: u16 = 0x0004;

pub const METHOD_ID_ITEM: u16 = 0x0005;

pub const CLASS_DEF_ITEM: u16 = 0x0006;

pub const MAP_LIST: u16 = 0x1000;

pub const TYPE_LIST: u16 = 0x1001;

pub const CLASS_DATA_ITEM: u16 = 0x2000;

pub const CODE_ITEM: u16 = 0x2001;

pub const STRING_DATA_ITEM: u16 = 0x2002;

pub const ENCODED_ARRAY_ITEM: u16 = 0x2005;
