//! What a file is built from.

/// The rows of a file's tables, with the data that they name. Each stands where it is given, and none of it is tested.
///
/// The file is laid out in this order: the header, the six tables, type lists, code items, texts, class data, the map,
/// encoded arrays. A table or a section without items isn't there. Type lists and the map are 4-aligned by zeros before
/// the map and after each list; so a first code item is, too.
#[derive(Clone, Copy)]
pub struct Rows<'r> {
    /// Each string_data_item as it is spelled: the number of units, MUTF-8, the end byte.
    pub strings: &'r [&'r [u8]],
    /// Each type_id_item: the string of its descriptor.
    pub types: &'r [u32],
    /// Each type_list: its types.
    pub lists: &'r [&'r [u16]],
    /// Each proto_id_item: shorty, return type, and which of the lists is its parameters.
    pub protos: &'r [(u32, u32, Option<usize>)],
    /// Each field_id_item: class, type, name.
    pub fields: &'r [(u16, u16, u32)],
    /// Each method_id_item: class, proto, name.
    pub methods: &'r [(u16, u16, u32)],
    /// Each class_def_item: its eight numbers as they stand, offsets in the file among them.
    pub classes: &'r [[u32; 8]],
    /// The bytes of the code items, in the map one item.
    pub codes: &'r [u8],
    /// The bytes of the class data, in the map one item.
    pub class_data: &'r [u8],
    /// The bytes of the encoded arrays, in the map one item, with which the file ends.
    pub arrays: &'r [u8],
}

/// No row, and no data.
pub const NOTHING: Rows<'static> = Rows {
    strings: &[],
    types: &[],
    lists: &[],
    protos: &[],
    fields: &[],
    methods: &[],
    classes: &[],
    codes: &[],
    class_data: &[],
    arrays: &[],
};
