//! The texts of the table, in the order in which they are printed.

/// Texts that show one part of the language.
pub struct Group {
    pub title: &'static str,
    pub texts: &'static [&'static str],
}

/// Texts of files.
pub static GROUPS: [Group; 15] = [
    Group {
        title: "files",
        texts: &[
            "",
            " \t\r\n// nothing\n",
            "let a = 1",
            "\n  let a = 1\n",
            "let a = 1\nlet b = 2",
            "let a = 1 let b = 2",
            "let a = 1\r let b = 2",
            "let a = 1 /*\n*/ let b = 2",
            "let a = 1 /* /*\n*/ */ let b = 2",
            "let a = 1 // b\nlet b = 2",
            "let",
            "let\n",
            "1",
            "return 1",
            "while a { }",
            "import A",
        ],
    },
    Group {
        title: "access",
        texts: &[
            "private let a = 1",
            "fileprivate var a = 1",
            "internal func f() { }",
            "public struct S { }",
            "private typealias T = Int",
            "private\nlet a = 1",
            "private",
            "private public let a = 1",
            "private extension S { }",
        ],
    },
    Group {
        title: "globals",
        texts: &[
            "var a: Int = 1",
            "let\na\n=\n1",
            "let a = 1\n+ 2",
            "let a: Int",
            "let a =",
            "let a 1",
            "let a: = 1",
            "let a: S.T = 1",
            "let = 1",
            "let _ = 1",
            "let import = 1",
            "let lets = 1",
            "let __ = 1",
        ],
    },
    Group {
        title: "functions",
        texts: &[
            "func f() { }",
            "func f(a: Int) -> Int { return a }",
            "func f(_ a: Int, b c: Int, d: Int) { }",
            "func f\n(\n)\n{\n}",
            "func f(_: Int) { }",
            "func f(a) { }",
            "func f(a b c: Int) { }",
            "func f(a _: Int) { }",
            "func f(, a: Int) { }",
            "func f(a: Int,) { }",
            "func f(_ a: Int = 1) { }",
            "func f(let a: Int) { }",
            "func f { }",
            "func f() -> { }",
            "func f()\nlet a = 1",
            "func f() {",
            "func f() { } }",
            "func f() { } func g() { }",
        ],
    },
    Group {
        title: "structs",
        texts: &[
            "struct S { }",
            "struct S\n{ let a: Int\n}",
            "struct S { var a = 1 }",
            "struct S { var a: Int = 1 }",
            "struct S { var a: Int { return 1 } }",
            "struct S { var a: Int\n{ return 1 } }",
            "struct S { var a: Int\nvar b: Int { return 1 }\nprivate func f() { } }",
            "struct S { let a: Int { return 1 } }",
            "struct S { var a { return 1 } }",
            "struct S { let a: Int let b: Int }",
            "struct S { func f() { } func g() { } }",
            "struct S { private\nvar a = 1\npublic func f() { } }",
            "struct S { private }",
            "struct S { struct T { } }",
            "struct S { typealias T = Int }",
            "struct S: P { }",
        ],
    },
    Group {
        title: "extensions",
        texts: &[
            "extension S { }",
            "extension S { private var a: Int { return 1 }\nfunc f() { } }",
            "extension S { var a: Int }",
            "extension S { var a = 1 }",
            "extension S { let a: Int }",
            "extension S { func f() { } var a: Int { return 1 } }",
            "extension S: P { }",
        ],
    },
    Group {
        title: "aliases",
        texts: &[
            "typealias T = Int",
            "typealias T Int",
            "typealias T = 1",
            "typealias T = Int let a = 1",
        ],
    },
    Group {
        title: "statements",
        texts: &[
            "func f() { let a = 1\nvar b: Int = a }",
            "func f() { let a = 1 let b = 2 }",
            "func f() { let a: Int }",
            "func f() { a = 1\na.b.c = 2 }",
            "func f() { a = 1 b = 2 }",
            "func f() { a() a() }",
            "func f() { a }",
            "func f() { a.b }",
            "func f() { a.b() }",
            "func f() { a(1)(2).b(3) }",
            "func f() { a().b }",
            "func f() { a().b = 1 }",
            "func f() { a\n(1) }",
            "func f() { a()\n(1)() }",
            "func f() { let a = 1\n(b)() }",
            "func f() { a\n.b()\na\n.b = 1 }",
            "func f() { a.b.c() = 1 }",
            "func f() { a.b. = 1 }",
            "func f() { a.1 = 1 }",
            "func f() { a = }",
            "func f() { a = b = 1 }",
            "func f() { (a) }",
            "func f() { 1 }",
            "func f() { a + 1 }",
            "func f() { -a() }",
            "func f() { self.a() }",
            "func f() { self = 1 }",
            "func f() { self.a = 1 }",
            "func f() { { } }",
            "func f() { func g() { } }",
            "func f() { private let a = 1 }",
        ],
    },
    Group {
        title: "return",
        texts: &[
            "func f() { return }",
            "func f() { return 1 }",
            "func f() { return\na() }",
            "func f() { return\n1 }",
            "func f() { return /*\n*/ }",
            "func f() { return /*\n*/ 1 }",
            "func f() { return",
            "func f() { return 1 return 2 }",
            "func f() { return let a = 1 }",
            "func f() { return a = 1 }",
        ],
    },
    Group {
        title: "if and while",
        texts: &[
            "func f() { if a { } }",
            "func f() { if a { } else { } }",
            "func f() { if a { } else if b { } else if c { } }",
            "func f() { if a\n{ }\nelse\nif b\n{ }\nelse\n{ } }",
            "func f() { if a { } else { } else { } }",
            "func f() { if a { } else { } else if b { } }",
            "func f() { if a { } else let b = 1 }",
            "func f() { if a(b) { } else if (c) { } }",
            "func f() { if a { } b() }",
            "func f() { if a b() }",
            "func f() { if { } }",
            "func f() { else { } }",
            "func f() { while a { b() } }",
            "func f() { while a { }\nb() }",
            "func f() { while a { } else { } }",
        ],
    },
    Group {
        title: "expressions",
        texts: &[
            "let x = a || b && c == d + e * -f.g(h)",
            "let x = 1 - 2 - 3 / 4 % 5 * 6",
            "let x = 1 < 2 && 3 >= 4 || 5 <= 6",
            "let x = 1 < 2 < 3",
            "let x = 1 == 2 != 3",
            "let x = (1 < 2) == (3 > 4)",
            "let x = true == false",
            "let x = !self.a",
            "let x = !!a",
            "let x = - -1",
            "let x = 1 - -1",
            "let x = 1<-2",
            "let x = * 1",
            "let x = 1 +",
            "let x = 1 === 2",
            "let x = a->b",
            "let x = a.b.c",
            "let x = 1.a",
            "let x = a.1",
            "let x = a.self",
            "let x = a.",
            "let x = .a",
            "let x = _",
            "let x = nil",
            "let x: Self = 1",
            "let x = (\n1)",
            "let x =\n(1)",
            "let x = ()",
            "let x = (1",
            "let x = 1)",
            "let x = (1, 2)",
            "let x = (1}",
        ],
    },
    Group {
        title: "arguments",
        texts: &[
            "let x = f()",
            "let x = f(1, b: 2, c)",
            "let x = f(a\n: 1)",
            "let x = f(\n1)",
            "let x = f(a: 1)(2).b",
            "let x = f\n(1)",
            "let x = f /*\n*/ (1)",
            "let x = f(a: b: 1)",
            "let x = f(_: 1)",
            "let x = f(1: 2)",
            "let x = f(self: 1)",
            "let x = f(a:)",
            "let x = f(1,)",
            "let x = f(1 2)",
            "let x = f(",
        ],
    },
    Group {
        title: "integers",
        texts: &[
            "let n = 9223372036854775807",
            "let n = 9223372036854775808",
            "let n = 9_223_372_036_854_775_807",
            "let n = 09223372036854775807",
            "let n = 1_",
            "let n = 1x",
            "let n = 1_x",
            "let n = 0x1F",
            "let n = 9223372036854775808x",
        ],
    },
    Group {
        title: "strings",
        texts: &[
            "let s = \"\"",
            "let s = \"\\n\\t\\r\\0\\\\\\\"\"",
            "let s = \"\t/* // é\"",
            "let s = \"a",
            "let s = \"a\\",
            "let s = \"a\n\"",
            "let s = \"a\r\"",
            "let s = \"a\\\n\"",
            "let s = \"a\\q\"",
            "let s = \"\\\\\\q\"",
            "let s = \"a\\q",
            "let s = \"a\" \"b\"",
        ],
    },
    Group {
        title: "comments and characters",
        texts: &[
            "/**/ // /*",
            "let a = 1 + /* b */ 2",
            "let a = 1 //",
            "let a = 1 /* b",
            "let a = 1 /* /* */",
            "/*/",
            "let a = 1 */",
            "let a = 1;",
            "let a = 1 & 2",
            "let a = 1 | 2",
            "let a = 1 \u{c}",
            "let é = 1",
            "// é\nlet a = #",
            "let let #",
            "let let # \"a",
        ],
    },
];

/// A text that is too long to be written out: pieces, each with how often it comes.
pub struct LongText {
    pub pieces: &'static [(&'static str, usize)],
}

/// Texts at the limits of levels and of bytes.
pub static LONG_TEXTS: [LongText; 17] = [
    LongText {
        pieces: &[("let a = ", 1), ("(", 100), ("1", 1), (")", 100)],
    },
    LongText {
        pieces: &[("let a = ", 1), ("(", 101), ("1", 1), (")", 101)],
    },
    LongText {
        pieces: &[("let a = ", 1), ("(", 101)],
    },
    LongText {
        pieces: &[
            ("let a = ", 1),
            ("(", 100),
            ("1", 1),
            (")", 100),
            (" + (1)", 1),
        ],
    },
    LongText {
        pieces: &[("let a = ", 1), ("(", 100), ("f(1)", 1), (")", 100)],
    },
    LongText {
        pieces: &[("let a = ", 1), ("(", 100), ("f\n(1)", 1), (")", 100)],
    },
    LongText {
        pieces: &[("let a = ", 1), ("(", 100), ("1 {", 1)],
    },
    LongText {
        pieces: &[("let = ", 1), ("(", 101)],
    },
    LongText {
        pieces: &[("let a = ", 1), ("f(", 100), ("1", 1), (")", 100)],
    },
    LongText {
        pieces: &[("let a = ", 1), ("f(", 101), ("1", 1), (")", 101)],
    },
    LongText {
        pieces: &[("func f() { ", 1), ("if a { ", 99), ("} ", 99), ("}", 1)],
    },
    LongText {
        pieces: &[("func f() { ", 1), ("if a { ", 100), ("} ", 100), ("}", 1)],
    },
    LongText {
        pieces: &[("//", 1), ("x", 262142)],
    },
    LongText {
        pieces: &[("//", 1), ("x", 262143)],
    },
    LongText {
        pieces: &[("let s = \"", 1), ("x", 262134), ("\"", 1)],
    },
    LongText {
        pieces: &[("let a =", 1), ("\n", 262137)],
    },
    LongText {
        pieces: &[("#", 262145)],
    },
];

/// Bytes, not all of them UTF-8.
pub static BYTES: [&[u8]; 6] = [
    b"\xff",
    b"// \xc3",
    b"// \xc0\xaf",
    b"// \xed\xa0\x80",
    b"let let # \xff",
    b"// \xf0\x9f\x8d\x8e",
];

/// The files of a project.
pub static PROJECT: [(&str, &str); 3] = [
    (
        "Money.swift",
        "\
/// Money in cents.
public struct Money {
    public let cents: Int
    var text: String { return sign + \"cents\" }
    private var sign: String {
        if cents < 0 { return \"-\" }
        return \"\"
    }
    func plus(_ other: Money) -> Money {
        return Money(cents: cents + other.cents)
    }
}
",
    ),
    (
        "Account.swift",
        "\
struct Account {
    let owner: String
    var balance: Money
    var entries = 0
}
extension Account {
    func after(deposit m: Money) -> Account {
        var next = Account(owner: owner, balance: balance.plus(m))
        next.entries = entries + 1
        return next
    }
}
",
    ),
    (
        "Bank.swift",
        "\
typealias Balance = Money
let opening: Balance = Money(cents: 100)
func run() {
    var n = 0
    var a = Account(owner: \"Ada\", balance: opening)
    while n < 3 {
        a = a.after(deposit: Money(cents: n * 10))
        n = n + 1
    }
    print(a.balance.cents)
}
",
    ),
];

/// Texts whose tokens are printed.
pub static TOKEN_TEXTS: [&str; 7] = [
    "",
    "let a_1 = 1_0 // end",
    "x /*\n*/ -> \"a\\n\"",
    "a//b\nc\r d",
    "if iff _ __ self Self",
    "1.a<==!||->-",
    "a\n\t#",
];
