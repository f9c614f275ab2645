//! The header by the page's names: the byte offsets of its fields, and the numbers of the sections that it names.
//! Page: "Dalvik Executable format", "header_item".

/// How many bytes the header takes.
pub(crate) const SIZE: usize = 112;

pub(crate) const MAGIC: usize = 0;

pub(crate) const VERSION: usize = 4;

pub(crate) const CHECKSUM: usize = 8;

pub(crate) const SIGNATURE: usize = 12;

pub(crate) const FILE_SIZE: usize = 32;

pub(crate) const HEADER_SIZE: usize = 36;

pub(crate) const ENDIAN_TAG: usize = 40;

pub(crate) const LINK_SIZE: usize = 44;

pub(crate) const MAP_OFF: usize = 52;

/// The first of the fields of sections: a size and an offset each, of four bytes.
pub(crate) const STRING_IDS_SIZE: usize = 56;

/// The types among the sections, which are counted from 0: the six tables in the order of their kinds, then the data.
pub(crate) const TYPE_IDS: usize = 1;

pub(crate) const PROTO_IDS: usize = 2;

/// How many sections are tables.
pub(crate) const TABLES: usize = 6;

/// The data section.
pub(crate) const DATA: usize = 6;
