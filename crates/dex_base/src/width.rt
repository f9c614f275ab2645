//! Bytes as 16-bit units, one for one: a loop that the compiler makes of many at a time.

ghost use Rattle.std.specs.Prelude.{◌≡◌, length};

/// Writes bytes as units over as many units.
pub fn widen(units: &mut [u16], bytes: &[u8])
    requires { length units.old ≡ length bytes.now }
    ensures { units.new ≡ bytes.now }
{
    for i in 0..bytes.len() {
        units[i] = bytes[i] as u16;
    }
}
