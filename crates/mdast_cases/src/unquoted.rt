//! Texts between quotes, as the lines of a table write them.

use crate::line::LineError;
use std::alloc::Global;

/// Returns the bytes of a text between quotes: `\n`, `\r`, `\t`, `\0`, `\\` and `\"` are one byte.
pub fn unquoted(alloc: Global, text: &str) -> Result<Vec<u8>, LineError> {
    match between_quotes(text) {
        Some(text) => unescaped(alloc, text),
        None => Err(LineError::Unread),
    }
}

/// Returns the part of a text between its quotes.
fn between_quotes(text: &str) -> Option<&str> {
    text.strip_prefix('"')?.strip_suffix('"')
}

/// Returns the bytes of a text with escapes.
fn unescaped(alloc: Global, text: &str) -> Result<Vec<u8>, LineError> {
    let mut bytes = Vec::new(alloc);
    let mut is_escape = false;
    for byte in text.bytes() {
        if byte == b'\\' && !is_escape {
            is_escape = true;
        } else {
            bytes.push(said(byte, is_escape).ok_or(LineError::Unread)?)?;
            is_escape = false;
        }
    }
    if is_escape {
        Err(LineError::Unread)
    } else {
        Ok(bytes)
    }
}

/// Returns the byte that a byte stands for, alone or, in an escape, after a backslash.
fn said(byte: u8, is_escape: bool) -> Option<u8> {
    match (byte, is_escape) {
        (b'"', false) => None,
        (_, false) => Some(byte),
        (_, true) => escaped(byte),
    }
}

/// Returns the byte that a letter after a backslash stands for.
fn escaped(letter: u8) -> Option<u8> {
    match letter {
        b'n' => Some(b'\n'),
        b'r' => Some(b'\r'),
        b't' => Some(b'\t'),
        b'0' => Some(0),
        b'\\' | b'"' => Some(letter),
        _ => None,
    }
}
