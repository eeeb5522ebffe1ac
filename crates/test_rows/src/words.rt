//! The words of a call, with one space between two.

/// The word with this index, counted from 0; the empty word after the last.
pub fn word(call: &'static str, place: usize) -> &'static str {
    call.split(' ').nth(place).unwrap_or("")
}

/// The words after the first one.
pub fn rest(call: &'static str) -> &'static str {
    match call.split_once(' ') {
        Some((_word, rest)) => rest,
        None => "",
    }
}

/// The number with this index, if there is one.
pub fn some_number(call: &'static str, place: usize) -> Option<u64> {
    word(call, place).parse::<u64>().ok()
}

/// The number with this index, or 0.
pub fn number(call: &'static str, place: usize) -> u64 {
    some_number(call, place).unwrap_or(0)
}

/// The size with this index, if there is one.
pub fn some_size(call: &'static str, place: usize) -> Option<usize> {
    word(call, place).parse::<usize>().ok()
}

/// The size with this index, or 0.
pub fn size(call: &'static str, place: usize) -> usize {
    some_size(call, place).unwrap_or(0)
}

/// The byte with this index, if there is one.
pub fn some_byte(call: &'static str, place: usize) -> Option<u8> {
    word(call, place).parse::<u8>().ok()
}
