//! Bytes that a text spells.

/// Replaces the bytes by those that a text means, and returns whether they had room. After a `\`, `r` and `n` end a
/// line, `t` is a tab, a digit is the byte of that number, and `d` and `f` are the bytes 127 and 255.
pub fn unescape(text: &'static str, bytes: &mut Vec<u8>) -> bool {
    bytes.clear();
    let mut escaped = false;
    for byte in text.as_bytes() {
        if !escaped && *byte == b'\\' {
            escaped = true;
        } else {
            let meant = if escaped { meant(*byte) } else { *byte };
            escaped = false;
            if bytes.push(meant).is_err() {
                return false;
            }
        }
    }
    true
}

fn meant(byte: u8) -> u8 {
    match byte {
        b'r' => b'\r',
        b'n' => b'\n',
        b't' => b'\t',
        b'0'..=b'9' => byte.saturating_sub(b'0'),
        b'd' => 127,
        b'f' => 255,
        other => other,
    }
}

/// Replaces the bytes by those of pairs of hexadecimal digits, and returns whether they had room.
pub fn unhex(text: &'static str, bytes: &mut Vec<u8>) -> bool {
    bytes.clear();
    let mut first = None;
    for letter in text.as_bytes() {
        let value = value_of(*letter);
        if value > 15 {
            first = None;
        } else if let Some(high) = first {
            if bytes.push((high << 4) | value).is_err() {
                return false;
            }
            first = None;
        } else {
            first = Some(value);
        }
    }
    true
}

fn value_of(letter: u8) -> u8 {
    match letter {
        b'0'..=b'9' => letter.saturating_sub(b'0'),
        b'a'..=b'f' => letter.saturating_sub(b'a').saturating_add(10),
        _ => 16,
    }
}
