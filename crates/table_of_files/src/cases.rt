//! The texts of the table, in the order in which they are printed.

/// A text: what stands in front, a character and how often it comes, and what stands behind. Behind
/// brackets stand as many that close them.
pub struct Case {
    pub front: &'static str,
    pub filler: &'static str,
    pub count: usize,
    pub back: &'static str,
}

/// Texts of output file maps.
pub const MAPS: [&str; 33] = [
    "",
    "{",
    "{'a':1}",
    "{} x",
    "[]",
    "null",
    "1",
    "\"a\"",
    "{}",
    " {} ",
    "{\"a.swift\":1}",
    "{\"a.swift\":null}",
    "{\"\":[]}",
    "{\"a.swift\":{\"object\":1}}",
    "{\"a.swift\":{\"object\":null}}",
    "{\"\":{\"gate\":1}}",
    "{\"a.swift\":{\"object\":\"/o\"}}",
    "{\"a.swift\":{\"object\":\"\"}}",
    "{\"a.swift\":{\"object\":\".o\"}}",
    "{\"a.swift\":{\"object\":\"a b\"}}",
    "{\"\":{\"swift-dependencies\":\"/r\"}}",
    "{\"a.swift\":{\"diagnostics\":1}}",
    "{\"a.swift\":{\"image\":1}}",
    "{\"\":{\"object\":1}}",
    "{\"b.swift\":1,\"a.swift\":{\"object\":1}}",
    "{\"a.swift\":{\"swiftmodule\":1,\"object\":\"/o\"}}",
    "{\"a.swift\":{\"object\":\"x\"},\"b.swift\":1}",
    "{\"a.swift\":{\"object\":\"x.o\"},\"b.swift\":{\"object\":\"x.o\"}}",
    "{\"a.swift\":{\"object\":\"y\",\"swiftmodule\":\"y\"},\"b.swift\":{\"object\":\"x\",\"swiftmodule\":\"x\"}}",
    "{\"a.swift\":{\"object\":\"x\",\"object\":\"y\"},\"b.swift\":{\"object\":\"x\"}}",
    "{\"\":{\"gate\":\"x\"},\"not a path\":{\"object\":\"x\"}}",
    "{\"a.swift\":{\"object\":\"\\u0078.o\"}}",
    "{\"\":{\"swift-dependencies\":\"Bank.record\"},\"Bank.swift\":{\"object\":\"Bank.obj\",\"diagnostics\":\"Bank.dia\",\"swift-dependencies\":\"Bank.deps\",\"swiftmodule\":\"Bank.part\"}}",
];

/// Longer ones.
pub const LONG_MAPS: [Case; 4] = [
    Case {
        front: "{\"a.swift\":{\"object\":\"",
        filler: "x",
        count: 255,
        back: "\"}}",
    },
    Case {
        front: "{\"a.swift\":{\"object\":\"",
        filler: "x",
        count: 256,
        back: "\"}}",
    },
    Case {
        front: "{\"a.swift\":{\"k\":",
        filler: "[",
        count: 125,
        back: "}}",
    },
    Case {
        front: "{\"a.swift\":{\"k\":",
        filler: "[",
        count: 126,
        back: "}}",
    },
];

/// Texts of build records.
pub const RECORDS: [&str; 38] = [
    "",
    "{",
    "{\"version\":1}x",
    "{\"version\":1e999}",
    "[]",
    "{}",
    "{\"version\":\"1\"}",
    "{\"version\":1.0}",
    "{\"version\":-0}",
    "{\"version\":-1}",
    "{\"version\":1e3}",
    "{\"version\":18446744073709551616}",
    "{\"version\":2}",
    "{\"version\":0}",
    "{\"version\":18446744073709551615}",
    "{\"version\":1}",
    "{\"files\":[],\"version\":1}",
    "{\"files\":{},\"version\":1}",
    "{\"files\":{},\"map\":1,\"version\":1}",
    "{\"files\":{},\"map\":null,\"version\":1}",
    "{\"files\":{},\"map\":null,\"module\":null,\"version\":1}",
    "{\"files\":{},\"map\":null,\"module\":\"M\",\"version\":1}",
    "{\"files\":{},\"map\":\"{}\",\"module\":\"\",\"version\":1}",
    "{\"b\":1,\"files\":{},\"a\":1,\"map\":null,\"module\":\"M\",\"version\":1}",
    "{\"version\":2,\"files\":{},\"map\":null,\"module\":\"M\",\"version\":1}",
    "{\"files\":{\"a.swift\":[1,0,12,\"clean\"]},\"map\":null,\"module\":\"M\",\"version\":1}",
    "{\"files\":{\"a.swift\":[1,4294967295,12,\"dirty\"],\"b.swift\":[0,0,0,\"clean\"]},\"map\":null,\"module\":\"M\",\"version\":1}",
    "{\"files\":{\"/a.swift\":[1,0,12,\"clean\"]},\"map\":null,\"module\":\"M\",\"version\":1}",
    "{\"files\":{\"a\":[1,0,12,\"clean\"]},\"map\":null,\"module\":\"M\",\"version\":1}",
    "{\"files\":{\"a.swift\":[1,0,12]},\"map\":null,\"module\":\"M\",\"version\":1}",
    "{\"files\":{\"a.swift\":[1,0,12,\"clean\",1]},\"map\":null,\"module\":\"M\",\"version\":1}",
    "{\"files\":{\"a.swift\":[1,0,12,\"new\"]},\"map\":null,\"module\":\"M\",\"version\":1}",
    "{\"files\":{\"a.swift\":[1,4294967296,12,\"clean\"]},\"map\":null,\"module\":\"M\",\"version\":1}",
    "{\"files\":{\"a.swift\":[1.5,0,12,\"clean\"]},\"map\":null,\"module\":\"M\",\"version\":1}",
    "{\"files\":{\"a.swift\":{}},\"map\":null,\"module\":\"M\",\"version\":1}",
    "{\"files\":{\"b.swift\":1,\"a.swift\":1},\"map\":null,\"module\":\"M\",\"version\":1}",
    "{\"files\":{\"a.swift\":1,\"a.swift\":[1,0,12,\"clean\"]},\"map\":null,\"module\":\"M\",\"version\":1}",
    "{\"files\":{\"a.swift\":[1,0,12,\"clean\"],\"b.swift\":[1,0,20,\"dirty\"],\"c.swift\":[1,0,31,\"clean\"]},\"map\":\"{\\\"\\\":{}}\\n\",\"module\":\"M\",\"version\":1}",
];

/// Texts of output file maps, each with the path of the one source to which names are assigned.
pub const ASSIGNED: [(&str, &str); 7] = [
    ("{}", "a/b.swift"),
    ("{\"a.swift\":{\"object\":\"b.o\"}}", "a.swift"),
    ("{\"a.swift\":{\"object\":\"b.o\"}}", "b.swift"),
    ("{\"\":{\"gate\":\"a.o\"}}", "a.swift"),
    (
        "{\"\":{\"gate\":\"M.image\",\"image\":\"M.gate\"}}",
        "a.swift",
    ),
    (
        "{\"a.swift\":{\"object\":\"M.gate\",\"swift-dependencies\":\"M.image\"}}",
        "a.swift",
    ),
    (
        "{\"\":{\"swift-dependencies\":\"Bank.record\"},\"Bank.swift\":{\"object\":\"Bank.obj\",\"diagnostics\":\"Bank.dia\",\"swift-dependencies\":\"Bank.deps\",\"swiftmodule\":\"Bank.part\"}}",
        "Bank.swift",
    ),
];
