//! The bytes that a line of the file stands for.

use crate::examples::problem::Problem;
use hex::FromHexError;
use std::alloc::Global;

/// Bytes that have a name in the file.
#[derive(Drop)]
pub struct Name {
    pub name: String,
    pub bytes: Vec<u8>,
}

/// The bytes of some hex digits.
fn hex_bytes(alloc: Global, digits: &str) -> Result<Vec<u8>, Problem> {
    match hex::decode(alloc, digits) {
        Ok(bytes) => Ok(bytes),
        Err(FromHexError::OutOfMemory) => Err(Problem::NoMemory),
        Err(_) => Err(Problem::Word),
    }
}

/// Appends the bytes of a name.
fn push_name(names: &[Name], bytes: &mut Vec<u8>, word: &str) -> Result<bool, Problem> {
    for name in names {
        if name.name.as_str() == word {
            bytes.extend_from_slice(name.bytes.as_slice())?;
            return Ok(true);
        }
    }
    Ok(false)
}

/// Appends the bytes of one word in the repetition of this number.
fn push_word(
    alloc: Global,
    names: &[Name],
    bytes: &mut Vec<u8>,
    word: &str,
    number: u16,
) -> Result<(), Problem> {
    if word == "N" {
        bytes.extend_from_slice(&number.to_be_bytes())?;
    } else if word == "T" {
        let text = format!(in alloc; "{number:04x}")?;
        bytes.extend_from_slice(text.as_str().as_bytes())?;
    } else if !push_name(names, bytes, word)? {
        bytes.extend_from_slice(hex_bytes(alloc, word)?.as_slice())?;
    }
    Ok(())
}

fn push_words(
    alloc: Global,
    names: &[Name],
    bytes: &mut Vec<u8>,
    words: &[&str],
    number: u16,
) -> Result<(), Problem> {
    for word in words {
        push_word(alloc, names, bytes, word, number)?;
    }
    Ok(())
}

/// The first and the last number of a repetition, as in `1..16:`.
fn range_of(word: &str) -> Option<(u16, u16)> {
    let (first, last) = word.strip_suffix(':')?.split_once("..")?;
    Some((first.parse::<u16>().ok()?, last.parse::<u16>().ok()?))
}

/// Appends the bytes of some words, as often as a repetition before them says.
pub fn push_line(
    alloc: Global,
    names: &[Name],
    bytes: &mut Vec<u8>,
    words: &[&str],
) -> Result<(), Problem> {
    let [word, rest @ ..] = words else {
        return Ok(());
    };
    match range_of(word) {
        None => push_words(alloc, names, bytes, words, 0),
        Some((first, last)) => {
            for number in first..=last {
                push_words(alloc, names, bytes, rest, number)?;
            }
            Ok(())
        }
    }
}
