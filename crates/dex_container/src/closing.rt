//! The signature and the checksum of a finished file.
ghost use Rattle.std.specs.Prelude.{◌≡◌, ◌≤◌, ◌++◌, length, take};
ghost use Rattle.dex_container.specs.Closed.{SetsSums};
ghost use Rattle.dex_container.specs.inner.Closed.{with_signature};

use crate::header_item::{CHECKSUM, FILE_SIZE, SIGNATURE};
use dex_base::{adler32, put_u32_at};
use sha1::Sha1;

/// The signature is computed before the checksum, which covers it.
fn put_signature(bytes: &mut [u8])
    requires { 32 ≤ length bytes.old }
    ensures { bytes.new ≡ take 12 bytes.old ++ with_signature bytes.old }
{
    let digest = Sha1::digest(&bytes[FILE_SIZE..]);
    bytes[SIGNATURE..FILE_SIZE].copy_from_slice(&digest);
}

/// Fills in the SHA-1 signature of the bytes from 32 on (bytes 12 to 31), and then the Adler-32 checksum of the
/// bytes from 12 on (bytes 8 to 11). No other byte changes (Dalvik Executable format, "header_item").
///
/// ```
/// use dex_container::{close, open};
/// use dex_file::write;
/// use dex_program::Program;
///
/// let mut file = write(alloc, &Program { classes: &[] })?;
/// file[12] = 0; // breaks the signature
/// close(&mut file);
/// assert!(rt; open(&file).is_ok());
/// ```
pub fn close(bytes: &mut [u8])
    requires { 112 ≤ length bytes.old }
    ensures { SetsSums bytes.old bytes.new }
{
    put_signature(bytes);
    let checksum = adler32(&bytes[SIGNATURE..]);
    put_u32_at(bytes, CHECKSUM, checksum);
}
