//! Lines of a listing's form, which are not about the program.

/// What a line is to the form of the listing: none of its own, refused by it with this fault, the first line of the second form, or the line
/// of a label.
#[derive(Clone, Copy)]
pub enum FormLine {
    Nothing,
    Refused(u16),
    First,
    Mark,
}
