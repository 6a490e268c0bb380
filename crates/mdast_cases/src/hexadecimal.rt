//! Bytes in hexadecimal, as the lines of a table write them.

use crate::line::LineError;
use std::alloc::Global;

/// Returns the bytes that hexadecimal digits stand for.
pub fn bytes_of_digits(alloc: Global, digits: &str) -> Result<Vec<u8>, LineError> {
    let mut bytes = Vec::new(alloc);
    for pair in digits.as_bytes().chunks(2) {
        bytes.push(byte_of_digits(pair).ok_or(LineError::Unread)?)?;
    }
    Ok(bytes)
}

/// Returns the byte that two hexadecimal digits stand for.
fn byte_of_digits(pair: &[u8]) -> Option<u8> {
    let [high, low] = pair else {
        return None;
    };
    let high = char::from(*high).to_digit(16)?;
    let low = char::from(*low).to_digit(16)?;
    u8::try_from(high.checked_mul(16)?.checked_add(low)?).ok()
}
