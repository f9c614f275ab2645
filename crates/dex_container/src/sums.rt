//! Checksum and signature: faults 8 and 9.
ghost use Rattle.std.specs.Prelude.{◌≡◌, ◌≤◌, ◌↔◌, IsTrue, length, OnOk, IfErr};
ghost use Rattle.dex_container.specs.Frame.{HeaderHolds, SumsHold, HasChecksum, HasSignature};
ghost use Rattle.dex_container.specs.Faults.{IsFrameFault};

use crate::header_item as field;
use dex_base::{Fault, adler32, fault, u32_at};
use sha1::Sha1;

/// Whether the number at byte 8 is the checksum of the bytes after it.
#[tactic(auto, unfolding(crate::specs::Frame::HasChecksum))]
fn has_checksum(bytes: &[u8]) -> bool
    requires { 12 ≤ length bytes.now }
    ensures { IsTrue result ↔ HasChecksum bytes.now }
{
    u32_at(bytes, field::CHECKSUM) == adler32(&bytes[field::SIGNATURE..])
}

/// Whether bytes 12 to 31 are the signature of the bytes after them.
fn has_signature(bytes: &[u8]) -> bool
    requires { 32 ≤ length bytes.now }
    ensures { IsTrue result ↔ HasSignature bytes.now }
{
    let digest = Sha1::digest(&bytes[field::FILE_SIZE..]);
    &bytes[field::SIGNATURE..field::FILE_SIZE] == digest.as_slice()
}

/// The rules of checksum and signature.
pub(crate) fn check_sums(bytes: &[u8]) -> Result<(), Fault>
    requires { HeaderHolds bytes.now }
    ensures ok { OnOk result (SumsHold bytes.now) }
    ensures err { IfErr result (IsFrameFault bytes.now) }
{
    if !has_checksum(bytes) {
        return Err(Fault::at(fault::CHECKSUM, field::CHECKSUM as u64));
    }
    if !has_signature(bytes) {
        return Err(Fault::at(fault::SIGNATURE, field::SIGNATURE as u64));
    }
    Ok(())
}
