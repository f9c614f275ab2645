//! What the jobs are given and answer, by name.

use crate::files::{LATER_SUPERCLASS, SPARE_NAMES, THREE_CLASSES};
use crate::listings::{
    BARE_TRY, ESCAPED, EVEN_PAYLOAD, LATER_SUPERCLASS_LISTED, ODD_PAYLOAD, ONE_CLASS_LISTED,
    ONE_CLASS_NUMBERED,
};
use crate::rich::{RICH, RICH_LISTED};
use dex_samples::{ONE_CLASS, WITHOUT_CLASSES};

/// Files, listings, and what a check answers.
#[derive(Clone, Copy)]
pub enum Given {
    Nothing,
    Okay,
    File,
    Listing,
    NumberedListing,
    EmptyFile,
    EmptyListing,
    SpareNames,
    LaterSuperclass,
    LaterSuperclassListing,
    ThreeClasses,
    BareTry,
    Escapes,
    OddPayload,
    EvenPayload,
    Rich,
    RichListing,
}

/// The bytes of that name.
pub fn bytes_of(given: Given) -> &'static [u8] {
    match given {
        Given::Nothing => &[],
        Given::Okay => b"ok\n",
        Given::File => &ONE_CLASS,
        Given::Listing => ONE_CLASS_LISTED,
        Given::NumberedListing => ONE_CLASS_NUMBERED,
        Given::EmptyFile => &WITHOUT_CLASSES,
        Given::EmptyListing => b"dex 035 listing 2\n",
        Given::SpareNames => &SPARE_NAMES,
        Given::LaterSuperclass => &LATER_SUPERCLASS,
        Given::LaterSuperclassListing => LATER_SUPERCLASS_LISTED,
        Given::ThreeClasses => &THREE_CLASSES,
        Given::BareTry => BARE_TRY,
        Given::Escapes => ESCAPED,
        Given::OddPayload => ODD_PAYLOAD,
        Given::EvenPayload => EVEN_PAYLOAD,
        Given::Rich => &RICH,
        Given::RichListing => RICH_LISTED,
    }
}
