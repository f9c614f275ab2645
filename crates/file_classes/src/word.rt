//! The words of a class row, by the page's names.
//! Page: "Dalvik Executable format", "class_def_item".

/// The index for no superclass and no source file.
pub const NO_INDEX: u32 = 0xffffffff;

pub const CLASS_IDX: u32 = 0;

pub const ACCESS_FLAGS: u32 = 1;

pub const SUPERCLASS_IDX: u32 = 2;

pub const INTERFACES_OFF: u32 = 3;

pub const SOURCE_FILE_IDX: u32 = 4;

pub const CLASS_DATA_OFF: u32 = 6;

pub const STATIC_VALUES_OFF: u32 = 7;
