//! The bytes of an item, as a key: hashed eight at a time.
ghost use Rattle.std.specs.Prelude.{◌≡◌, ◌+◌, ◌/◌, ◌≤◌, length};
ghost use Rattle.std.specs.List.{fold};
ghost use Rattle.file_layout.specs.inner.Hashing.{long_at, longs, item_input};

use byteorder::{ByteOrder, LittleEndian};
use std::hash::{Hash, Hasher};

/// The bytes of an item.
#[derive(PartialEq, Eq, Drop)]
pub(crate) struct Item {
    pub bytes: Vec<u8>,
}

/// Eight bytes as one number.
fn long_at(bytes: &[u8], at: usize) -> u64
    requires { at + 8 ≤ length bytes.now }
    ensures { result ≡ long_at bytes.now at }
{
    LittleEndian::read_u64(&bytes[at..])
}

/// Bytes, eight at a time.
fn hash_longs<H: Hasher>(bytes: &[u8], state: &mut H)
    ensures { state.new ≡ fold H.write state.old (longs bytes.now (length bytes.now / 8)) }
{
    for k in 0..bytes.len() / 8 {
        state.write_u64(long_at(bytes, 8 * k));
    }
}

impl Hash for Item {
    ghost use Rattle.file_layout.specs.inner.Hashing.{item_respects};

    ghost hash_input = { item_input };

    ghost respects_eq = { item_respects };

    fn hash<H: Hasher>(&self, state: &mut H) {
        let bytes = self.bytes.as_slice();
        state.write_usize(bytes.len());
        hash_longs(bytes, state);
        u8::hash_slice(&bytes[bytes.len() / 8 * 8..], state);
    }
}
