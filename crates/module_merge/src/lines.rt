ghost use Rattle.std.specs.Prelude.{◌≡◌, ◌≤◌, length, nat_eq};
ghost use Rattle.std.specs.List.{position_or_len, before_first, after_first};
ghost use Rattle.drv_outside.specs.Plain.{is_plain_path as is_plain};
ghost use Rattle.module_merge.specs.Lines.{has_ended_lines, is_heading, is_headed};

use drv_outside::is_plain_path;

// The place of the first such byte, or the length where there is none.
fn place_of(text: &[u8], byte: u8) -> usize
    ensures first { result ≡ position_or_len (λ b. nat_eq b byte) text.now }
    ensures within { result ≤ length text.now }
{
    for (place, b) in text.iter().enumerate() {
        if *b == byte {
            return place;
        }
    }
    text.len()
}

// What stands before the first such byte, or all where there is none.
pub(crate) fn before(text: &[u8], byte: u8) -> &[u8]
    ensures { result.now ≡ before_first (λ b. nat_eq b byte) text.now }
{
    let place = place_of(text, byte);
    &text[..place]
}

// What stands after the first such byte, or nothing where there is none.
pub(crate) fn after(text: &[u8], byte: u8) -> &[u8]
    ensures { result.now ≡ after_first (λ b. nat_eq b byte) text.now }
{
    let place = place_of(text, byte);
    if place < text.len() {
        &text[place + 1..]
    } else {
        &text[place..]
    }
}

fn is_path(bytes: &[u8]) -> bool
    ensures { result ≡ is_plain bytes.now }
{
    match str::from_utf8(bytes) {
        Ok(path) => is_plain_path(path),
        Err(_) => false,
    }
}

// Whether a line is this word and then a plain path.
fn is_heading(word: &[u8], line: &[u8]) -> bool
    ensures { result ≡ is_heading word.now line.now }
{
    match line.strip_prefix(word) {
        Some(path) => is_path(path),
        None => false,
    }
}

// Whether there are lines, each of which ends with a line feed.
fn has_ended_lines(text: &[u8]) -> bool
    ensures { result ≡ has_ended_lines text.now }
{
    text.ends_with(b"\n")
}

// Whether there are lines, each of which ends with a line feed, the first of them this word and then a
// plain path.
pub(crate) fn is_headed(word: &[u8], text: &[u8]) -> bool
    ensures { result ≡ is_headed word.now text.now }
{
    has_ended_lines(text) && is_heading(word, before(text, b'\n'))
}
