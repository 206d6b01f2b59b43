//! Numbers as a generator of them gives, and modules of such.

use crate::modules::{Cell, Change, File, Module, Print, file_at};

const FACTOR: u64 = 6364136223846793005;

const STEP: u64 = 1442695040888963407;

/// A linear congruential generator.
#[derive(Debug, Drop)]
pub struct Numbers {
    state: u64,
}

impl Numbers {
    /// A generator that starts at a number.
    pub fn new(state: u64) -> Numbers {
        Numbers { state }
    }

    fn next(&mut self) -> u64 {
        self.state = self.state.wrapping_mul(FACTOR).wrapping_add(STEP);
        self.state >> 40
    }

    /// A truth value.
    pub fn flips(&mut self) -> bool {
        self.next() % 2 == 0
    }

    /// Whether one of three comes.
    fn is_third(&mut self) -> bool {
        self.next() % 3 == 0
    }

    /// A number below eight.
    pub fn below_eight(&mut self) -> usize {
        (self.next() % 8) as usize
    }
}

fn random_uses(numbers: &mut Numbers) -> [bool; 4] {
    let mut uses = [false; 4];
    for used in uses.iter_mut() {
        *used = numbers.is_third() && numbers.flips();
    }
    uses
}

fn random_cell(numbers: &mut Numbers) -> Option<Cell> {
    if numbers.flips() {
        return None;
    }
    let print = if numbers.flips() {
        Print::Empty
    } else {
        Print::Filled
    };
    let uses = random_uses(numbers);
    Some(Cell { print, uses })
}

fn random_file(numbers: &mut Numbers) -> File {
    [
        random_cell(numbers),
        random_cell(numbers),
        random_cell(numbers),
        random_cell(numbers),
    ]
}

/// A random file in three of four cases.
fn may_be_file(numbers: &mut Numbers) -> Option<File> {
    if numbers.flips() && numbers.flips() {
        None
    } else {
        Some(random_file(numbers))
    }
}

fn random_module(numbers: &mut Numbers) -> Module {
    let mut files = [None; 8];
    for place in files.iter_mut() {
        *place = may_be_file(numbers);
    }
    files
}

/// A random change: some files stay as they were.
pub fn random_change(numbers: &mut Numbers) -> Change {
    let before = random_module(numbers);
    let mut now = random_module(numbers);
    let mut first = [false; 8];
    for (at, place) in now.iter_mut().enumerate() {
        if numbers.flips() {
            *place = file_at(&before, at);
        }
    }
    for (at, is_first) in first.iter_mut().enumerate() {
        *is_first = file_at(&now, at).is_some() && numbers.is_third();
    }
    Change { before, now, first }
}
