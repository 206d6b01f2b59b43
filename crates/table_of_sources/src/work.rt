//! What is timed.

use crate::shapes::Shape;
use anyhow::{Error, anyhow};
use std::alloc::Global;
use swift_parser::{FileTree, ParseFault, parse_file};
use swift_token::tokens;

/// The most bytes of a text.
const MOST_BYTES: usize = 1_000_000;

/// What is done with each file.
#[derive(Clone, Copy, Debug)]
pub enum Work {
    /// Nothing: the files are made.
    Texts,

    /// Its tokens are found.
    Tokens,

    /// Its tree is made.
    Trees,
}

/// A work over files of one shape and length.
#[derive(Clone, Copy, Debug)]
pub struct Task {
    pub work: Work,
    pub shape: Shape,
    pub bytes: usize,
    pub files: usize,
    pub times: usize,
}

impl Work {
    pub fn named(name: &str) -> Option<Work> {
        match name {
            "texts" => Some(Work::Texts),
            "tokens" => Some(Work::Tokens),
            "trees" => Some(Work::Trees),
            _ => None,
        }
    }
}

fn number(word: &String) -> Option<usize> {
    word.as_str().parse().ok()
}

// How many tokens a text has.
fn tokens_in(alloc: Global, text: &str) -> Result<usize, Error> {
    if text.len() > MOST_BYTES {
        return Err(anyhow!("the text is too long"));
    }
    match tokens(alloc, text) {
        Ok(found) => Ok(found.len()),
        Err(_) => Err(anyhow!("the text has no tokens")),
    }
}

// How many declarations a file's tree has; None where the file has none.
fn decl_count(found: &Result<FileTree, ParseFault>) -> Option<usize> {
    match found {
        Ok(tree) => Some(tree.decls.len()),
        Err(_) => None,
    }
}

fn decls_in(alloc: Global, text: &str) -> Option<usize> {
    let found = parse_file(alloc, "a.swift", text.as_bytes());
    decl_count(&found)
}

impl Task {
    /// The work that the words ask for: its name, the shape of the files, their length, how many there are, and how
    /// often it is done. None where the words ask for no work.
    pub fn from_words(words: &[String]) -> Option<Task> {
        let [work, shape, bytes, files, times] = words else {
            return None;
        };
        Some(Task {
            work: Work::named(work.as_str())?,
            shape: Shape::named(shape.as_str())?,
            bytes: number(bytes)?,
            files: number(files)?,
            times: number(times)?,
        })
    }

    // How much is found in one text.
    fn found_in(self, alloc: Global, text: &str) -> Result<usize, Error> {
        match self.work {
            Work::Texts => Ok(text.len()),
            Work::Tokens => tokens_in(alloc, text),
            Work::Trees => { decls_in(alloc, text).ok_or_else(|| anyhow!("the text has no tree")) }
        }
    }

    fn texts(self, alloc: Global) -> Result<Vec<String>, Error> {
        let mut texts = Vec::new(alloc);
        for _ in 0..self.files {
            texts.push(self.shape.text(alloc, self.bytes)?)?;
        }
        Ok(texts)
    }

    fn found_once(self, alloc: Global, texts: &[String]) -> Result<usize, Error> {
        let mut found = 0usize;
        for text in texts {
            found = found.saturating_add(self.found_in(alloc, text.as_str())?);
        }
        Ok(found)
    }

    /// Does the work, and answers how much was found in all files together: bytes, tokens or declarations.
    pub fn run(self, alloc: Global) -> Result<usize, Error> {
        let texts = self.texts(alloc)?;
        let mut found = 0usize;
        for _ in 0..self.times {
            found = found.saturating_add(self.found_once(alloc, &texts)?);
        }
        Ok(found)
    }
}
