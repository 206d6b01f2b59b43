//! Modules that are written out: the examples of `docs/LANGUAGE.md` and `docs/OBJECTS.md`, and each kind of error line.

/// A module.
pub struct Case {
    pub title: &'static str,

    /// The path and the text of each file, by path.
    pub sources: &'static [(&'static str, &'static str)],
}

/// The modules of the table.
pub const MODULES: [Case; 57] = [
    Case {
        title: "a small project of three files",
        sources: &[
            (
                "Account.swift",
                "struct Account {\n    let owner: String\n    var balance: Money\n    var entries = 0\n}\nextension Account {\n    func after(deposit m: Money) -> Account {\n        var next = Account(owner: owner, balance: balance.plus(m))\n        next.entries = entries + 1\n        return next\n    }\n}\n",
            ),
            (
                "Bank.swift",
                "typealias Balance = Money\nlet opening: Balance = Money(cents: 100)\nfunc run() {\n    var n = 0\n    var a = Account(owner: \"Ada\", balance: opening)\n    while n < 3 {\n        a = a.after(deposit: Money(cents: n * 10))\n        n = n + 1\n    }\n    print(a.balance.cents)\n}\n",
            ),
            (
                "Money.swift",
                "/// Money in cents.\npublic struct Money {\n    public let cents: Int\n    var text: String { return sign + \"cents\" }\n    private var sign: String {\n        if cents < 0 { return \"-\" }\n        return \"\"\n    }\n    func plus(_ other: Money) -> Money {\n        return Money(cents: cents + other.cents)\n    }\n}\n",
            ),
        ],
    },
    Case {
        title: "the errors stand where b and c are checked",
        sources: &[(
            "a.swift",
            "struct S { let a: Missing }\nfunc f() -> S { return f() }\nlet b = f()\nlet c = S(a: 1)\n",
        )],
    },
    Case {
        title: "the members of an extension of what is no struct are read without a line",
        sources: &[(
            "a.swift",
            "typealias T = Int\nextension T {\n    func n() -> Missing { return other + self.x }\n}\n",
        )],
    },
    Case {
        title: "Of a root that is a member both self and the member are asked",
        sources: &[(
            "a.swift",
            "struct T { let x: Missing }\nstruct S {\n    var t: T\n    func set() { t = 1 }\n}\n",
        )],
    },
    Case {
        title: "neither can members that are named alone",
        sources: &[(
            "a.swift",
            "struct S {\nvar n: Int\nfunc up() { n = n + 1 }\n}",
        )],
    },
    Case {
        title: "Where some file has no tree, the lines of such files are all lines",
        sources: &[("a.swift", "let a = ("), ("b.swift", "let b = missing")],
    },
    Case {
        title: "d/.a.swift is plain",
        sources: &[("d/.a.swift", "let a = 1")],
    },
    Case {
        title: "In 1é the é is a bad character",
        sources: &[("a.swift", "let a = 1é")],
    },
    Case {
        title: "a comment without end is told at the start of its outermost /*",
        sources: &[("a.swift", "let a = 1 /* // /* */")],
    },
    Case {
        title: "self.a = x has an unexpected =",
        sources: &[(
            "a.swift",
            "struct S {\nvar a: Int\nfunc f() { self.a = 1 }\n}",
        )],
    },
    Case {
        title: "1(2) is a statement, and 1 a value",
        sources: &[("a.swift", "func f() { 1(2) }")],
    },
    Case {
        title: "a string with its quotes and escapes",
        sources: &[("a.swift", "let a = 1 \"\\n\"")],
    },
    Case {
        title: "a function that has itself as a type is circular",
        sources: &[("a.swift", "func f(x: f) { }")],
    },
    Case {
        title: "a type's name that means a value or a function",
        sources: &[("a.swift", "func f() { }\nlet a: f = 1")],
    },
    Case {
        title: "self stands outside of a member in an initial value of a stored property",
        sources: &[("a.swift", "struct S { let a = self }")],
    },
    Case {
        title: "a value of the type Void fits there too",
        sources: &[("a.swift", "func f() { return print(1) }")],
    },
    Case {
        title: "a global whose type is written keeps it",
        sources: &[("a.swift", "struct S { let a: Missing }\nlet g: S = 1")],
    },
    Case {
        title: "each written type but an alias's",
        sources: &[("a.swift", "struct S { let a: Missing }\ntypealias A = S")],
    },
    Case {
        title: "a call with an argument that has no type doesn't say that a value can't be called",
        sources: &[("a.swift", "func f() { 1(missing) }")],
    },
    Case {
        title: "an ambiguous member says that alone, also where self has errors",
        sources: &[(
            "a.swift",
            "struct S {\nlet a: Missing\nvar m: Int { return 1 }\nvar m: Int { return m }\n}",
        )],
    },
    Case {
        title: "where a written result means nothing, no return is told",
        sources: &[("a.swift", "func f() -> Missing { return }")],
    },
    Case {
        title: "all three of a name that is declared both to itself and for all, and in another file",
        sources: &[
            ("a.swift", "private let n = 1\nlet n = 2"),
            ("b.swift", "let n = 3"),
        ],
    },
    Case {
        title: "'print' is not a value",
        sources: &[("a.swift", "let a = print")],
    },
    Case {
        title: "an unknown part wins, so that struct S with let a: Missing and, on a line of its own, let s: S is circular",
        sources: &[("a.swift", "struct S { let a: Missing\nlet s: S }")],
    },
    Case {
        title: "typealias A = B with typealias B = A gives two lines each, at the name and at the type",
        sources: &[("a.swift", "typealias A = B\ntypealias B = A")],
    },
    Case {
        title: "A(1), where A is an alias of Int, gives 'A' is not a value",
        sources: &[("a.swift", "typealias A = Int\nlet x: Int = A(1)")],
    },
    Case {
        title: "Int(1) gives cannot find 'Int' in scope",
        sources: &[("a.swift", "let x: Int = Int(1)")],
    },
    Case {
        title: "(f)(1) reads f as a value",
        sources: &[("a.swift", "func f(_ x: Int) { }\nfunc g() { (f)(1) }")],
    },
    Case {
        title: "A type's name that means a global which is broken gives has errors where it is declared",
        sources: &[("a.swift", "let g = missing\nlet h: g = 1")],
    },
    Case {
        title: "A root that is a function, a struct or print is read as a name first, and gives is not a value",
        sources: &[(
            "a.swift",
            "struct S { }\nfunc f() {\nf = 1\nS = 1\nprint = 1\n}",
        )],
    },
    Case {
        title: "A part that can't be assigned and whose type's nominal is broken gives both lines",
        sources: &[(
            "a.swift",
            "struct S { let a: Missing }\nfunc f(s: S) {\ns = 1\n}",
        )],
    },
    Case {
        title: "Members of equal name of two structs of one name are declared again too",
        sources: &[
            ("a.swift", "struct S { let a: Int }"),
            ("b.swift", "struct S { let a: Int }"),
        ],
    },
    Case {
        title: "An extension of such a struct counts as one of what is no struct",
        sources: &[(
            "a.swift",
            "struct S { }\nstruct S { }\nextension S { func f() { missing() } }",
        )],
    },
    Case {
        title: "a call with wrong labels or a wrong number says that alone, and no conversions",
        sources: &[("a.swift", "func f(x: Int) { }\nfunc g() { f(y: true) }")],
    },
    Case {
        title: "A call with an argument that has no type says nothing else",
        sources: &[(
            "a.swift",
            "func f(x: Int, y: Int) { }\nfunc g() { f(y: true, missing) }",
        )],
    },
    Case {
        title: "a local that is declared again in its scope: the first one is what its name finds",
        sources: &[(
            "a.swift",
            "func g() {\nlet x = 1\nlet x = true\nlet y: Int = x\n}",
        )],
    },
    Case {
        title: "what print is given (B is String)",
        sources: &[("a.swift", "struct S { }\nfunc g() { print(S()) }")],
    },
    Case {
        title: "private and fileprivate: declared both to itself and for all",
        sources: &[("a.swift", "private let a = 1\nlet a = 2")],
    },
    Case {
        title: "a value above 9223372036854775807 is too wide",
        sources: &[(
            "a.swift",
            "let a = 9223372036854775807\nlet b = 9223372036854775808",
        )],
    },
    Case {
        title: "an integer that is too wide and has a letter after it is a bad number",
        sources: &[("a.swift", "let a = 9223372036854775808z")],
    },
    Case {
        title: "a string with a bad escape and no end isn't closed",
        sources: &[("a.swift", "let a = \"\\q\n")],
    },
    Case {
        title: "another escape is a bad escape, told at the \\",
        sources: &[("a.swift", "let a = \"\\q\"")],
    },
    Case {
        title: "the end of the file where a token is still owed, told behind the last byte",
        sources: &[("a.swift", "let a = \n")],
    },
    Case {
        title: "the first bracket that opens level 101, whichever comes first",
        sources: &[(
            "a.swift",
            "let a = ((((((((((((((((((((((((((((((((((((((((((((((((((((((((((((((((((((((((((((((((((((((((((((((((((((()",
        )],
    },
    Case {
        title: "and the unexpected token where both are one",
        sources: &[(
            "a.swift",
            "func f() { return ((((((((((((((((((((((((((((((((((((((((((((((((((((((((((((((((((((((((((((((((((((((((((((((((((x \n()",
        )],
    },
    Case {
        title: "names and types that nothing has",
        sources: &[("a.swift", "let a = b\nlet c: D = 1\n")],
    },
    Case {
        title: "two declarations of one name, and a use",
        sources: &[
            ("a.swift", "let a = 1\n"),
            ("b.swift", "let a = true\nlet b = a\n"),
        ],
    },
    Case {
        title: "circles of globals, members and structs",
        sources: &[(
            "a.swift",
            "let a = b\nlet b = a + missing\nstruct S { let t: T }\nstruct T { let s: S\nlet u: U }\nstruct U {\n    let m = n\n    let k = 1\n}\nlet n = U().m\n",
        )],
    },
    Case {
        title: "members",
        sources: &[
            (
                "a.swift",
                "struct P { var x: Int\nlet y: Int\nprivate let z = 1 }\nfunc f(p: P) -> Int {\n    var q = p\n    q.x = 3\n    q.y = 4\n    p.x = 5\n    q.w = 6\n    return q.z + q.w + p.y\n}\n",
            ),
            ("b.swift", "func g(p: P) -> Int { return p.z }\n"),
        ],
    },
    Case {
        title: "operators",
        sources: &[(
            "a.swift",
            "let a = 1 + true\nlet b = -\"x\"\nlet c = !1\nlet d = \"a\" < \"b\" && 1 == true\nlet e = 1 + \"x\" * 2\n",
        )],
    },
    Case {
        title: "conversions",
        sources: &[(
            "a.swift",
            "let a: Int = true\nfunc f(_ x: Int, y: String) -> Bool {\n    if x { return y }\n    while y { f(y, y: x) }\n    var z: Bool = 1\n    z = x\n    return true\n}\n",
        )],
    },
    Case {
        title: "returns",
        sources: &[(
            "a.swift",
            "func f() -> Int { }\nfunc g() -> Bool {\n    if true { return true } else if false { return false }\n}\nfunc h() -> Int { return }\nfunc i() { return 1 }\nstruct S { var p: Int { while true { return 1 } } }\nfunc j(n: Int) -> Int {\n    if n == 1 { return 1 } else { return 2 }\n}\n",
        )],
    },
    Case {
        title: "calls",
        sources: &[(
            "a.swift",
            "func f(a: Int, _ b: Int) -> Int { return a }\nlet x = f(1, 2)\nlet y = f(a: 1)\nlet z = f(a: 1, 2)(3)\nlet s = S(n: 1)\nlet t = S(1)\nstruct S { let n: Int\nlet m = 2\nfunc go() { } }\nfunc g() { s.go()\ns.go(1)\ns.n()\nprint(1)\nprint(true, 1)\nx() }\n",
        )],
    },
    Case {
        title: "a struct that is too large",
        sources: &[(
            "a.swift",
            "struct A0 { let a: Int\nlet b: Int }\nstruct A1 { let a: A0\nlet b: A0 }\nstruct A2 { let a: A1\nlet b: A1 }\nstruct A3 { let a: A2\nlet b: A2 }\nstruct A4 { let a: A3\nlet b: A3 }\nstruct A5 { let a: A4\nlet b: A4 }\nstruct A6 { let a: A5\nlet b: A5 }\nstruct A7 { let a: A6\nlet b: A6 }\nstruct A8 { let a: A7\nlet b: A7 }\nstruct A9 { let a: A8\nlet b: A8 }\nstruct A10 { let a: A9\nlet b: A9 }\nstruct A11 { let a: A10\nlet b: A10 }\nstruct A12 { let a: A11\nlet b: A11 }\nstruct A13 { let a: A12\nlet b: A12 }\nstruct A14 { let a: A13\nlet b: A13 }\nstruct A15 { let a: A14\nlet b: A14 }\nstruct A16 { let a: A15\nlet b: A15 }\nstruct A17 { let a: A16\nlet b: A16 }\nstruct A18 { let a: A17\nlet b: A17 }\nstruct A19 { let a: A18\nlet b: A18 }\nstruct A20 { let a: A19\nlet b: A19 }\n",
        )],
    },
    Case {
        title: "every statement",
        sources: &[(
            "a.swift",
            "var total = 0\nfunc run(n: Int) -> String {\n    let first = n * 2\n    var last: Int = first % 3\n    if first > last && n != 0 {\n        last = last - 1\n    } else if n == 0 || first <= 3 {\n        total = total + 1\n    } else {\n        print(\"odd\")\n    }\n    while last < 10 {\n        let first = last\n        last = first + 1\n    }\n    if !(last >= 10) { return \"less\" }\n    return \"done\" + \"!\"\n}\n",
        )],
    },
    Case {
        title: "structs, extensions and a private name in two files",
        sources: &[
            (
                "a.swift",
                "private let n = 1\nstruct S {\n    let a: Int\n    var s = \"x\"\n    private let b = true\n}\n",
            ),
            (
                "b.swift",
                "private let n = \"b\"\nextension S {\n    var twice: Int { return a * 2 }\n    func named(_ t: String) -> S { return S(a: twice, s: t + s + n, b: false) }\n}\n",
            ),
        ],
    },
    Case {
        title: "a name that is private in a struct, outside of its file",
        sources: &[
            ("a.swift", "struct S { private let b = true }\n"),
            ("b.swift", "let s = S()\nlet b = s.b\n"),
        ],
    },
];
