//! The words that are always the same.

ghost use Rattle.std.specs.Prelude.{◌≡◌, ◌∷◌, ℕ, List};
ghost use Rattle.listing_slots.specs.Keys.{key_text, same, find_key, lead_keys, value_keys, payload_keys};

/// A keyword.
#[rattlefmt::skip]
#[derive(Clone, Copy)]
pub enum Key {
    // the first word of a line
    Dex, Class, End, Super, Implements, Source, Static, Instance, Direct, Virtual, Code, Try, Catch, CatchAll,
    // the word of a payload
    Packed, Sparse, Elements,
    // after others
    Version, Equals, Open, Close,
    // the first word of a value
    Byte, Short, Char, Int, Long, Float, Double, Text, Desc, Field, Method, Enum, Array, Null, True, False,
}

#[rattlefmt::skip]
const VALUES: [Key; 16] = [
    Key::Byte, Key::Short, Key::Char, Key::Int, Key::Long, Key::Float, Key::Double, Key::Text, Key::Desc, Key::Field, Key::Method,
    Key::Enum, Key::Array, Key::Null, Key::True, Key::False,
];

const PAYLOADS: [Key; 3] = [Key::Packed, Key::Sparse, Key::Elements];

/// The word.
#[rattlefmt::skip]
#[tactic(auto, unfolding(crate::specs::Keys::key_text))]
pub fn key_text(key: Key) -> &'static str
    ensures { result.now ≡ key_text key }
{
    match key {
        Key::Dex => "dex", Key::Class => "class", Key::End => "end", Key::Super => "super", Key::Implements => "implements",
        Key::Source => "source", Key::Static => "static", Key::Instance => "instance", Key::Direct => "direct",
        Key::Virtual => "virtual", Key::Code => "code", Key::Try => "try", Key::Catch => "catch", Key::CatchAll => "catchall",
        Key::Packed => "packed-switch-payload", Key::Sparse => "sparse-switch-payload", Key::Elements => "array-payload",
        Key::Version => "035", Key::Equals => "=", Key::Open => "{", Key::Close => "}",
        Key::Byte => "byte", Key::Short => "short", Key::Char => "char", Key::Int => "int", Key::Long => "long",
        Key::Float => "float", Key::Double => "double", Key::Text => "string", Key::Desc => "type", Key::Field => "field",
        Key::Method => "method", Key::Enum => "enum", Key::Array => "array", Key::Null => "null", Key::True => "true",
        Key::False => "false",
    }
}

/// Whether the texts are equal.
pub fn is_same(a: &[u8], b: &[u8]) -> bool
    ensures { result ≡ same a.now b.now }
{
    a == b
}

#[tactic(auto, unfolding(crate::specs::Keys::find_key))]
/// The keyword among these that is the text.
fn find_key(keys: &[Key], text: &[u8]) -> Option<Key>
    ensures { result ≡ find_key keys.now text.now }
{
    for key in keys {
        if is_same(key_text(*key).as_bytes(), text) {
            return Some(*key);
        }
    }
    None
}

/// The keywords of lines that begin with this byte: at most four, so that a mnemonic is compared with few of them.
#[tactic(auto, unfolding(crate::specs::Keys::find_key, crate::specs::Keys::key_text, crate::specs::Keys::same))]
fn leads_with(first: u8) -> &'static [Key]
    ensures { (rest : List ℕ) → find_key result.now (first ∷ rest) ≡ find_key lead_keys (first ∷ rest) }
{
    match first {
        b'c' => &[Key::Class, Key::Code, Key::Catch, Key::CatchAll],
        b'd' => &[Key::Dex, Key::Direct],
        b'e' => &[Key::End],
        b'i' => &[Key::Implements, Key::Instance],
        b's' => &[Key::Super, Key::Source, Key::Static],
        b't' => &[Key::Try],
        b'v' => &[Key::Virtual],
        _ => &[],
    }
}

/// The keyword of a line. The longest is `implements`; most mnemonics are longer.
#[tactic(auto, unfolding(crate::specs::Keys::find_key, crate::specs::Keys::key_text, crate::specs::Keys::same))]
pub(crate) fn lead_key(text: &[u8]) -> Option<Key>
    ensures { result ≡ find_key lead_keys text.now }
{
    if text.len() > 10 {
        return None;
    }
    let (first, _) = text.split_first()?;
    find_key(leads_with(*first), text)
}

/// The keyword of a value.
pub(crate) fn value_key(text: &[u8]) -> Option<Key>
    ensures { result ≡ find_key value_keys text.now }
{
    find_key(&VALUES, text)
}

/// The word of a payload. The shortest is `array-payload`, and all end with `d`, which no mnemonic as long does.
pub(crate) fn payload_key(text: &[u8]) -> Option<Key>
    ensures { result ≡ find_key payload_keys text.now }
{
    if text.len() < 13 {
        return None;
    }
    if text[text.len() - 1] != b'd' {
        return None;
    }
    find_key(&PAYLOADS, text)
}
