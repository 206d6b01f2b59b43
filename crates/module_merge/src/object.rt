ghost use Rattle.std.specs.Prelude.{◌≡◌};
ghost use Rattle.module_merge.specs.Object.{are_digits, has_no_leading_zero, is_numeral, are_two_numerals, are_three_numerals, is_zero_and_numeral, is_global_line, is_func_line, is_load_line, is_store_line, is_call_line, is_object_line, are_object_lines, is_object, has_symbol};

use crate::lines::{after, before, is_headed};

fn are_digits(text: &[u8]) -> bool
    ensures { result ≡ are_digits text.now }
{
    text.iter().all(|b| b.is_ascii_digit())
}

fn has_no_leading_zero(text: &[u8]) -> bool
    ensures { result ≡ has_no_leading_zero text.now }
{
    text == b"0".as_slice() || !text.starts_with(b"0")
}

// Whether a text is a decimal numeral without leading zeros.
fn is_numeral(text: &[u8]) -> bool
    ensures { result ≡ is_numeral text.now }
{
    !text.is_empty() && are_digits(text) && has_no_leading_zero(text)
}

fn are_two_numerals(text: &[u8]) -> bool
    ensures { result ≡ are_two_numerals text.now }
{
    is_numeral(before(text, b' ')) && is_numeral(after(text, b' '))
}

fn are_three_numerals(text: &[u8]) -> bool
    ensures { result ≡ are_three_numerals text.now }
{
    is_numeral(before(text, b' ')) && are_two_numerals(after(text, b' '))
}

fn is_zero_and_numeral(text: &[u8]) -> bool
    ensures { result ≡ is_zero_and_numeral text.now }
{
    before(text, b' ') == b"0".as_slice() && is_numeral(after(text, b' '))
}

fn has_symbol(text: &[u8]) -> bool
    ensures { result ≡ has_symbol text.now }
{
    !before(text, b' ').is_empty()
}

fn is_global_line(line: &[u8]) -> bool
    ensures { result ≡ is_global_line line.now }
{
    match line.strip_prefix(b"global ".as_slice()) {
        Some(rest) => has_symbol(rest) && is_numeral(after(rest, b' ')),
        None => !line.starts_with(b"global"),
    }
}

fn is_func_line(line: &[u8]) -> bool
    ensures { result ≡ is_func_line line.now }
{
    match line.strip_prefix(b"func ".as_slice()) {
        Some(rest) => has_symbol(rest) && are_three_numerals(after(rest, b' ')),
        None => !line.starts_with(b"func"),
    }
}

fn is_load_line(line: &[u8]) -> bool
    ensures { result ≡ is_load_line line.now }
{
    match line.strip_prefix(b" load ".as_slice()) {
        Some(rest) => has_symbol(rest) && is_zero_and_numeral(after(rest, b' ')),
        None => !line.starts_with(b" load"),
    }
}

fn is_store_line(line: &[u8]) -> bool
    ensures { result ≡ is_store_line line.now }
{
    match line.strip_prefix(b" store ".as_slice()) {
        Some(rest) => has_symbol(rest) && are_two_numerals(after(rest, b' ')),
        None => !line.starts_with(b" store"),
    }
}

fn is_call_line(line: &[u8]) -> bool
    ensures { result ≡ is_call_line line.now }
{
    match line.strip_prefix(b" call ".as_slice()) {
        Some(rest) => has_symbol(rest) && are_two_numerals(after(rest, b' ')),
        None => !line.starts_with(b" call"),
    }
}

fn is_object_line(line: &[u8]) -> bool
    ensures { result ≡ is_object_line line.now }
{
    is_global_line(line)
        && is_func_line(line)
        && is_load_line(line)
        && is_store_line(line)
        && is_call_line(line)
}

fn are_object_lines(text: &[u8]) -> bool
    ensures { result ≡ are_object_lines text.now }
{
    text.split(|b| *b == b'\n').all(|line| is_object_line(line))
}

/// Whether a text is an object text: lines that each end with a line feed, the first of them
/// `object PATH` with a plain path.
///
/// Lines that begin with `global`, `func`, ` load`, ` store` or ` call` have the form of
/// `global SYMBOL W`, `func SYMBOL P S R`, ` load SYMBOL 0 W`, ` store SYMBOL OFFSET W` or
/// ` call SYMBOL WORDS W`. A symbol is filled and has no blank, and the others are decimal numerals
/// without leading zeros. Other lines may be anything.
pub fn is_object(text: &[u8]) -> bool
    ensures { result ≡ is_object text.now }
{
    is_headed(b"object ", text) && are_object_lines(text)
}
