//! The words after a benchmark's name.

/// The word at a place: nothing where there are fewer.
pub fn word<'a>(words: &[&'a str], place: usize) -> &'a str {
    match words.get(place) {
        Some(word) => *word,
        None => "",
    }
}

/// The number at a place: 1 where there is none.
pub fn number(words: &[&str], place: usize) -> u32 {
    word(words, place).parse::<u32>().unwrap_or(1)
}
