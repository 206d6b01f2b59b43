//! The projects.

/// A project.
pub struct Project {
    pub title: &'static str,

    /// The path and the text of each file, ascending by path.
    pub files: &'static [(&'static str, &'static str)],

    /// Names that are asked for at the top level.
    pub asked: &'static [&'static str],
}

pub const PROJECTS: [Project; 4] = [
    Project {
        title: "no file",
        files: &[],
        asked: &["one"],
    },
    Project {
        title: "globals, functions and aliases, with each access",
        files: &[
            (
                "a.swift",
                "let one = 1\nfunc f() { }\ntypealias T = Int\nprivate var two = 2\nfileprivate func g() { }\npublic let three = 3\ninternal let four = 4\nprivate typealias U = Int\n",
            ),
            ("sub/b.swift", "private let one = 1\n"),
        ],
        asked: &[
            "one",
            "two",
            "two@a.swift",
            "one@sub/b.swift",
            "one@a.swift",
        ],
    },
    Project {
        title: "structs, members and extensions",
        files: &[
            (
                "a.swift",
                "private struct S {\n  var x: Int\n  private let y = 1\n  func f() { }\n}\nextension S {\n  var z: Int { return 1 }\n}\ntypealias T = S\n",
            ),
            (
                "b.swift",
                "struct S {\n  fileprivate var x: Int { return 2 }\n}\nextension S {\n  private func f() { }\n  public func x() { }\n}\nextension U {\n  func f() { }\n}\ntypealias T = Int\n",
            ),
        ],
        asked: &["S", "S@a.swift", "T", "x"],
    },
    Project {
        title: "declared more than once",
        files: &[
            (
                "a.swift",
                "let n = 1\nlet n = 2\nstruct A {\n  let m: Int\n  let m: Int\n}\n",
            ),
            (
                "b.swift",
                "struct A {\n  func m() { }\n}\nextension A {\n}\nextension A {\n}\nfunc n() { }\n",
            ),
            (
                "c.swift",
                "extension A {\n  fileprivate func m() { }\n}\nfileprivate struct A {\n}\n",
            ),
        ],
        asked: &["n", "A"],
    },
];
