//! A file whose header, map and checksums are valid, and its sections.
ghost use Rattle.std.specs.Prelude.{◌≡◌, ◌+◌, ◌<◌, ◌≤◌, ℕ, length, IfOk, IfErr, IfSome, IsOk, MatchOption};
ghost use Rattle.dex_container.specs.Frame.{IsFramed, HasKind, IsSection, table_of, end_at};
ghost use Rattle.dex_container.specs.Layout.{entry_count};
ghost use Rattle.dex_container.specs.Faults.{IsFrameFault};

use crate::fields::{data_begin, entry_count, offset_of, place_at, size_of};
use crate::header::check_header;
use crate::header_item::DATA;
use crate::kind;
use crate::map::{check_map, find_kind};
use crate::sections::check_sections;
use crate::sums::check_sums;
use dex_base::Fault;
use std::marker::Model;

/// A file whose header, checksums and map hold. It borrows the bytes and copies nothing.
#[derive(Drop)]
pub struct Sections<'a> {
    bytes: &'a [u8],
}

impl<'a> Model for Sections<'a> {
    ghost use Rattle.std.specs.Prelude.{List, ℕ};
    ghost use Rattle.dex_container.specs.Frame.{IsFramed};

    ghost Value = { List ℕ };

    ghost view = { λ s. s.bytes.now };

    ghost invariant = { λ s. IsFramed s.bytes.now };
}

impl<'a> Sections<'a> {
    /// The whole file.
    ///
    /// ```
    /// use dex_container::open;
    /// use dex_file::write;
    /// use dex_program::Program;
    ///
    /// let file = write(alloc, &Program { classes: &[] })?;
    /// assert!(rt; open(&file)?.bytes() == file.as_slice());
    /// ```
    pub fn bytes(&self) -> &'a [u8]
        ensures value { result.now ≡ self.now }
        ensures framed { IsFramed self.now }
    {
        self.bytes
    }

    /// What holds of every open file, for proofs: it is framed. Does nothing.
    pub fn framed(&self)
        ensures { IsFramed self.now }
    {
        let _file = self.bytes;
    }

    /// How many rows the table of this kind has (1 to 6, as the map numbers them) and at which byte it begins: 0
    /// and 0 where it has no row, or for another kind.
    ///
    /// ```
    /// use dex_container::{kind, open};
    /// use dex_file::write;
    /// use dex_program::Program;
    ///
    /// let file = write(alloc, &Program { classes: &[] })?;
    /// assert_eq!(rt; open(&file)?.table(kind::STRING_ID_ITEM), (0, 0));
    /// ```
    pub fn table(&self, kind: u16) -> (u32, u32)
        ensures { result ≡ table_of self.now kind }
    {
        let bytes = self.bytes;
        if kind == kind::HEADER_ITEM || kind > kind::CLASS_DEF_ITEM {
            return (0, 0);
        }
        let k = kind as usize - 1;
        let size = size_of(bytes, k);
        if size == 0 {
            return (0, 0);
        }
        (size, offset_of(bytes, k))
    }

    /// Where the section of this kind of data item begins and ends, in bytes. None where the map has no entry of
    /// the kind, and for the kinds of header and tables.
    ///
    /// ```
    /// use dex_container::{kind, open};
    /// use dex_file::write;
    /// use dex_program::Program;
    ///
    /// let file = write(alloc, &Program { classes: &[] })?;
    /// assert_eq!(rt; open(&file)?.section(kind::MAP_LIST), Some((112, 140)));
    /// ```
    pub fn section(&self, kind: u16) -> Option<(u32, u32)>
        ensures some { IfSome result (λ s. IsSection self.now kind s.0 s.1) }
        ensures within { IfSome result (λ s. (s.0 < s.1) × (s.1 ≤ length self.now)) }
        ensures none { MatchOption result (0x1000 ≤ kind → ¬ HasKind self.now kind) (λ s. 0x1000 ≤ kind) }
    {
        let bytes = self.bytes;
        if kind < kind::MAP_LIST {
            return None;
        }
        let i = find_kind(bytes, kind)?;
        Some((place_at(bytes, i), section_end(bytes, i)))
    }
}

/// Returns the sections of a file whose header, map and checksums keep all rules (Dalvik Executable format). Otherwise the
/// error is the lowest-numbered fault, at its lowest place, a byte offset. Needs no memory.
///
/// ```
/// use dex_container::open;
///
/// assert!(rt; open(b"dex\n035").is_err()); // 1 TooShort at 7
/// ```
pub fn open(bytes: &[u8]) -> Result<Sections<'_>, Fault>
    ensures framed { IfOk result (λ s. (s ≡ bytes.now) × IsFramed bytes.now) }
    ensures only { IsFramed bytes.now → IsOk result }
    ensures fault { IfErr result (IsFrameFault bytes.now) }
{
    check_header(bytes)?;
    check_sums(bytes)?;
    check_sections(bytes)?;
    check_map(bytes)?;
    Ok(Sections { bytes })
}

/// Where what entry i names ends.
fn section_end(bytes: &[u8], i: usize) -> u32
    requires framed { IsFramed bytes.now }
    requires entry { i < entry_count bytes.now }
    ensures value { result ≡ end_at bytes.now i }
    ensures within { result ≤ length bytes.now }
{
    let data_end = data_begin(bytes) + size_of(bytes, DATA);
    if i + 1 < entry_count(bytes) as usize {
        data_end.min(place_at(bytes, i + 1))
    } else {
        data_end
    }
}
