use crate::work::{Part, Shape};

/// What the words of the command line ask for.
#[derive(Clone, Copy)]
pub enum Task {
    Table,

    /// A part of the work with a project of this shape and so many files.
    Work(Part, Shape, usize),
}

impl Task {
    /// None where the words ask for nothing that there is.
    pub fn from_words(words: &[String]) -> Option<Task> {
        let Some((word, rest)) = words.split_first() else {
            return Some(Task::Table);
        };
        match word.as_str() {
            "work" => work(rest),
            _ => None,
        }
    }
}

fn work(words: &[String]) -> Option<Task> {
    let [part, shape, files] = words else {
        return None;
    };
    Some(Task::Work(
        Part::from_word(part.as_str())?,
        Shape::from_word(shape.as_str())?,
        files.as_str().parse().ok()?,
    ))
}
