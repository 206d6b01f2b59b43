//! The runs.

/// A run of steps over a new tree.
pub struct Run {
    pub title: &'static str,
    pub steps: &'static [&'static str],
}

pub const RUNS: [Run; 8] = [
    Run {
        title: "sources are listed by path, and a stamp is not used again",
        steps: &[
            "sources",
            "put b.swift two",
            "put a.swift one",
            "sources",
            "put a.swift six",
            "put a.swift one",
            "take b.swift",
            "take b.swift",
            "sources",
        ],
    },
    Run {
        title: "output file maps",
        steps: &[
            "read m.json",
            "map m.json {}",
            "read m.json",
            "map m.json []",
            "read m.json",
        ],
    },
    Run {
        title: "calls that fail by number, and a stop",
        steps: &[
            "write a.o one",
            "fail 1",
            "sync",
            "write a.o two",
            "sync",
            "folder",
            "stop 2",
            "remove a.o",
            "sync",
            "sync",
            "write a.o two",
            "crash 0",
            "folder",
        ],
    },
    Run {
        title: "a crash leaves what is settled, and what is in doubt as it reads",
        steps: &[
            "write a.o one",
            "sync",
            "write b.o two",
            "remove a.o",
            "crash 0",
            "folder",
        ],
    },
    Run {
        title: "as it was when it was last settled",
        steps: &[
            "write a.o one",
            "sync",
            "write a.o two",
            "write b.o three",
            "crash 5",
            "folder",
            "crash 15",
            "folder",
        ],
    },
    Run {
        title: "nothing, and the single byte 01",
        steps: &[
            "write a.o one",
            "write b.o two",
            "write c.o three",
            "crash 14",
            "folder",
        ],
    },
    Run {
        title: "a name whose write failed is in doubt",
        steps: &["fail 0", "write a.o one", "folder", "crash 3", "folder"],
    },
    Run {
        title: "a file that is dropped is in no doubt",
        steps: &["write a.o one", "drop a.o", "drop a.o", "crash 3", "folder"],
    },
];
