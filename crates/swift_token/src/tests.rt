ghost use Rattle.std.specs.Prelude.{◌<◌, length};

use super::*;
use std::alloc::Global;
use std::test::Fail;

#[test]
fn names(rt: HostRuntime) -> Result<(), Fail> {
    assert!(rt; is_identifier("one"));
    assert!(rt; is_identifier("_x9"));
    assert!(rt; is_identifier("lets"));
    assert!(rt; !is_identifier("let"));
    assert!(rt; !is_identifier("associatedtype"));
    assert!(rt; !is_identifier("_"));
    assert!(rt; !is_identifier("9a"));
    assert!(rt; !is_identifier("a-b"));
    assert!(rt; !is_identifier(""));
    Ok(())
}

#[test]
fn parts_of_texts(rt: HostRuntime) -> Result<(), Fail> {
    assert!(rt; is_keyword("Any") && !is_keyword("any"));
    assert!(rt; is_word(b"let") && !is_word(b"1a"));
    assert!(rt; begins_word(b'_') && !begins_word(b'1') && is_word_byte(b'1'));
    assert!(rt; is_blank(b'\r') && !is_blank(0));
    assert_eq!(rt; blanks_len(b" \t\r\nlet"), 4);
    assert_eq!(rt; word_len(b"one+1"), 3);
    assert!(rt; is_integer(b"9_223_372_036_854_775_807"));
    assert!(rt; !is_integer(b"9223372036854775808"));
    assert!(rt; !is_integer(b"1x") && !is_integer(b"_1"));
    Ok(())
}

/// The place of the fault of a text and what it is, if it has one.
fn fault(alloc: Global, text: &str) -> Option<(u32, u32, LexWhat)>
    requires { length text.now < 1000 }
{
    match tokens(alloc, text) {
        Err(LexEnd::Fault(LexFault { line, column, what })) => Some((line, column, what)),
        _ => None,
    }
}

#[test]
fn tokens_of_all_kinds(rt: HostRuntime) -> Result<(), Fail> {
    let text = "let a_1 = /* x /* y */ z */ -> // rest\n  \"\\n\" <= 1_0 && !b";
    let Ok(found) = tokens(rt.alloc(), text) else {
        panic!(rt; "a fault");
    };
    assert_eq!(rt; found.len(), 10);
    let (Some(first), Some(arrow)) = (found.get(0), found.get(3)) else {
        panic!(rt; "too few");
    };
    assert_eq!(rt; first.kind, TokenKind::Keyword);
    assert!(rt; first.first_on_line && !arrow.first_on_line);
    assert_eq!(rt; arrow.text, "->");
    assert_eq!(rt; arrow.column, 29);
    let (Some(string), Some(number)) = (found.get(4), found.get(6)) else {
        panic!(rt; "too few");
    };
    assert_eq!(rt; string.kind, TokenKind::StringText);
    assert_eq!(rt; string.text, "\"\\n\"");
    assert!(rt; string.first_on_line);
    assert_eq!(rt; string.line, 2);
    assert_eq!(rt; string.column, 3);
    assert_eq!(rt; number.kind, TokenKind::Integer);
    assert_eq!(rt; number.text, "1_0");
    Ok(())
}

#[test]
fn faults(rt: HostRuntime) -> Result<(), Fail> {
    let alloc = rt.alloc();
    assert_eq!(rt; fault(alloc, "a /* b */"), None);
    assert_eq!(rt; fault(alloc, "a\n #"), Some((2, 2, LexWhat::BadCharacter)));
    assert_eq!(rt; fault(alloc, "a & b"), Some((1, 3, LexWhat::BadCharacter)));
    assert_eq!(rt; fault(alloc, "1x"), Some((1, 1, LexWhat::BadNumber)));
    assert_eq!(rt;
        fault(alloc, "9223372036854775808"),
        Some((1, 1, LexWhat::WideNumber))
    );
    assert_eq!(rt;
        fault(alloc, "a \"b\r\""),
        Some((1, 3, LexWhat::OpenString))
    );
    assert_eq!(rt; fault(alloc, "\"\\q"), Some((1, 1, LexWhat::OpenString)));
    assert_eq!(rt; fault(alloc, "\"ab\\q\""), Some((1, 4, LexWhat::BadEscape)));
    assert_eq!(rt;
        fault(alloc, "a /* /* */ b"),
        Some((1, 3, LexWhat::OpenComment))
    );
    assert_eq!(rt; fault(alloc, "a // b"), None);
    Ok(())
}
