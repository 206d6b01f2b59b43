//! Files of some shapes and of a wanted length.

use std::alloc::{AllocError, Global};

/// The levels of brackets in a file of brackets.
const LEVELS: usize = 99;

/// What a file is mostly of.
#[derive(Clone, Copy, Debug)]
pub enum Shape {
    /// Many short declarations.
    Declarations,

    /// One sum of many operands.
    Operands,

    /// Declarations with 99 levels of brackets each.
    Brackets,

    /// One comment.
    Comment,

    /// One string.
    Characters,

    /// Declarations, statements and expressions of every kind.
    Constructs,
}

/// Every construct of the language.
const CONSTRUCTS: &str = "\
public struct Point {
    let x: Int
    private var y: Int = -1
    var z = \"a\\n\\\"b\"
    fileprivate var far: Bool { return !(x <= 10 && y >= self.x) || x != y }
    internal func moved(by step: Int, _ twice: Bool, last: String) -> Point {
        var next = Point(x: x + step * 2 / 3 % 4 - 1, y: y)
        let same: Bool = (true == false)
        next.y = step
        next.inner.x = (1 + 2) * 3
        if twice { next.x = 1 } else if same { next.x = 2 } else { next.x = 3 }
        while x < 3 || x > 5 { next.x = x } // again
        next.moved(by: 1, true, last: \"s\").show()
        return next
    }
}
extension Point {
    var half: Int { return x / 2 }
    private func show() { return }
}
typealias Place = Point
private let origin: Place = Point(x: 0, y: 1_000)
var count = f(false, g: /* a /* b */ */ origin.x)
func empty() { }
";

// Puts a text behind another one so many times.
fn push_times(text: &mut String, piece: &str, times: usize) -> Result<(), AllocError> {
    for _ in 0..times {
        text.push_str(piece)?;
    }
    Ok(())
}

// A declaration with as many brackets as a file may have but one.
fn bracketed(alloc: Global) -> Result<String, AllocError> {
    let mut text = String::from_str(alloc, "let a = ")?;
    push_times(&mut text, "(", LEVELS)?;
    text.push_str("1")?;
    push_times(&mut text, ")", LEVELS)?;
    text.push_str("\n")?;
    Ok(text)
}

impl Shape {
    pub fn named(name: &str) -> Option<Shape> {
        match name {
            "declarations" => Some(Shape::Declarations),
            "operands" => Some(Shape::Operands),
            "brackets" => Some(Shape::Brackets),
            "comment" => Some(Shape::Comment),
            "characters" => Some(Shape::Characters),
            "constructs" => Some(Shape::Constructs),
            _ => None,
        }
    }

    // What stands in front, and what stands behind.
    fn ends(self) -> (&'static str, &'static str) {
        match self {
            Shape::Declarations | Shape::Brackets | Shape::Constructs => ("", ""),
            Shape::Operands => ("let a = 1", ""),
            Shape::Comment => ("/*", "*/"),
            Shape::Characters => ("let a = \"", "\""),
        }
    }

    // What comes again and again.
    fn filler(self, alloc: Global) -> Result<String, AllocError> {
        match self {
            Shape::Declarations => String::from_str(alloc, "let abc = 123\n"),
            Shape::Operands => String::from_str(alloc, " + 1"),
            Shape::Brackets => bracketed(alloc),
            Shape::Constructs => String::from_str(alloc, CONSTRUCTS),
            Shape::Comment | Shape::Characters => String::from_str(alloc, "a"),
        }
    }

    /// A file of the shape with so many bytes, the last of them blanks where no more fits.
    pub fn text(self, alloc: Global, bytes: usize) -> Result<String, AllocError> {
        let (front, back) = self.ends();
        let filler = self.filler(alloc)?;
        let held = bytes.saturating_sub(front.len()).saturating_sub(back.len());
        let times = held.checked_div(filler.len()).unwrap_or(0);
        let mut text = String::from_str(alloc, front)?;
        push_times(&mut text, filler.as_str(), times)?;
        text.push_str(back)?;
        let blanks = bytes.saturating_sub(text.len());
        push_times(&mut text, " ", blanks)?;
        Ok(text)
    }
}
