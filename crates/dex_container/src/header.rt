//! The fields of the header that depend on nothing else, and their faults.
ghost use Rattle.std.specs.Prelude.{◌≡◌, OnOk, IfErr};
ghost use Rattle.dex_container.specs.Frame.{HeaderHolds};
ghost use Rattle.dex_container.specs.Faults.{IsFrameFault};

use crate::header_item as field;
use dex_base::{Fault, fault, u16_at, u32_at};

/// The rules of magic, version, file_size, header_size, endian_tag and link_size.
pub(crate) fn check_header(bytes: &[u8]) -> Result<(), Fault>
    ensures ok { OnOk result (HeaderHolds bytes.now) }
    ensures err { IfErr result (IsFrameFault bytes.now) }
{
    if bytes.len() < field::SIZE {
        return Err(Fault::at(fault::TOO_SHORT, bytes.len() as u64));
    }
    if u32_at(bytes, field::MAGIC) != 0x0a78_6564 || bytes[7] != 0 {
        return Err(Fault::at(fault::MAGIC, field::MAGIC as u64));
    }
    if u16_at(bytes, field::VERSION) != 0x3330 || bytes[6] != 0x35 {
        return Err(Fault::at(fault::VERSION, field::VERSION as u64));
    }
    if u32_at(bytes, field::FILE_SIZE) as usize != bytes.len() {
        return Err(Fault::at(fault::FILE_SIZE, field::FILE_SIZE as u64));
    }
    if u32_at(bytes, field::HEADER_SIZE) as usize != field::SIZE {
        return Err(Fault::at(fault::HEADER_SIZE, field::HEADER_SIZE as u64));
    }
    if u32_at(bytes, field::ENDIAN_TAG) != 0x1234_5678 {
        return Err(Fault::at(fault::ENDIAN, field::ENDIAN_TAG as u64));
    }
    if u32_at(bytes, field::LINK_SIZE) != 0 {
        return Err(Fault::at(fault::LINKED, field::LINK_SIZE as u64));
    }
    Ok(())
}
