//! The words of the command line.

use drv_outside::Text;
use std::alloc::{AllocError, Global};
use std::env::FillError;
use std::rt::Env;

// A word may be up to 4 KiB times two to the power of this many.
const MOST_DOUBLINGS: u32 = 32;

// The bytes of the word at a place, the program's name being at 0, or None behind the last.
fn word_at<R: Env>(rt: &R, alloc: Global, place: usize) -> Result<Option<Text>, AllocError> {
    let mut size = 4096usize;
    for _ in 0..MOST_DOUBLINGS {
        let mut buffer = vec![in alloc; 0u8; size]?;
        match rt.arg(place, &mut buffer) {
            Ok(length) => {
                buffer.truncate(length);
                return Ok(Some(Text::from_vec(buffer)));
            }
            Err(FillError::NotPresent) => return Ok(None),
            Err(FillError::TooLong) => size = size.saturating_mul(2),
        }
    }
    Err(AllocError)
}

/// The words of the command line behind the program's name, as bytes.
pub fn command_line<R: Env>(rt: &R, alloc: Global) -> Result<Vec<Text>, AllocError> {
    let mut words = Vec::new(alloc);
    for place in 1..usize::MAX {
        let Some(word) = word_at(rt, alloc, place)? else {
            break;
        };
        words.push(word)?;
    }
    Ok(words)
}
