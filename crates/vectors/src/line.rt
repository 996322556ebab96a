// A line of test vectors: a letter, words of hexadecimal digits, each after a space, and the line's end.
use crate::words::Words;

fn digit(b: u8) -> Option<u64> {
    match b {
        b'0'..=b'9' => Some(u64::from(b - b'0')),
        b'a'..=b'f' => Some(u64::from(b - b'a' + 10)),
        _ => None,
    }
}

// The number of the digits, of which the last 16 count. None where there are none, or another byte is among them.
fn number(digits: &[u8]) -> Option<u64> {
    if digits.is_empty() {
        return None;
    }
    let mut value = 0;
    for b in digits {
        value = (value << 4) | digit(*b)?;
    }
    Some(value)
}

/// Sets `to` to what follows the letter of a line. None where the line is malformed or has more words than fit.
pub fn read_words<'a>(line: &[u8], to: &'a mut [u64]) -> Option<Words<'a>> {
    let body = line.strip_suffix(b"\n")?;
    let mut pieces = body.split(|b| *b == b' ');
    if pieces.next()?.len() != 1 {
        return None;
    }
    let mut count = 0;
    for digits in pieces {
        *to.get_mut(count)? = number(digits)?;
        count += 1;
    }
    Some(Words::new(to.get(..count)?))
}
