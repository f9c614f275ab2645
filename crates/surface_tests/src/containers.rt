//! dex_container.
ghost use Rattle.std.specs.Prelude.{◌≤◌, length};

use dex_base::Fault;
use dex_container::{Sections, close, open};

pub fn opened<'b>(bytes: &'b [u8]) -> Result<Sections<'b>, Fault> {
    open(bytes)
}

pub fn its_bytes<'b>(sections: &Sections<'b>) -> &'b [u8] {
    sections.bytes()
}

pub fn size_and_offset(sections: &Sections<'_>, kind: u16) -> (u32, u32) {
    sections.table(kind)
}

pub fn begin_and_end(sections: &Sections<'_>, kind: u16) -> Option<(u32, u32)> {
    sections.section(kind)
}

pub fn closed(bytes: &mut [u8])
    requires { 112 ≤ length bytes.old }
{
    close(bytes);
}
