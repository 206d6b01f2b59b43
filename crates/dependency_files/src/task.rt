use crate::large::Shape;

/// What the words of the command line ask for.
#[derive(Clone, Copy)]
pub enum Task {
    Table,
    Bytes(Shape),
    Graph(Shape),
    Write(Shape, usize),
    Read(Shape, usize),
    Input(usize),
    Records(usize),
    Answers,
}

impl Task {
    /// None where the words ask for nothing that there is.
    pub fn from_words(words: &[String]) -> Option<Task> {
        let Some((word, rest)) = words.split_first() else {
            return Some(Task::Table);
        };
        match word.as_str() {
            "bytes" => Some(Task::Bytes(shape(rest)?)),
            "graph" => Some(Task::Graph(shape(rest)?)),
            "work" => work(rest),
            "answers" => Some(Task::Answers),
            _ => None,
        }
    }
}

// What the words behind `work` ask for.
fn work(words: &[String]) -> Option<Task> {
    let (word, rest) = words.split_first()?;
    match word.as_str() {
        "write" => {
            let (shape, times) = shape_and_times(rest)?;
            Some(Task::Write(shape, times))
        }
        "read" => {
            let (shape, times) = shape_and_times(rest)?;
            Some(Task::Read(shape, times))
        }
        "input" => Some(Task::Input(times(rest)?)),
        "records" => Some(Task::Records(times(rest)?)),
        _ => None,
    }
}

fn number(word: &String) -> Option<usize> {
    word.as_str().parse().ok()
}

fn shape(words: &[String]) -> Option<Shape> {
    let [nodes, uses, identifiers] = words else {
        return None;
    };
    Some(Shape {
        nodes: number(nodes)?,
        uses: number(uses)?,
        identifiers: number(identifiers)?,
    })
}

fn shape_and_times(words: &[String]) -> Option<(Shape, usize)> {
    let (last, front) = words.split_last()?;
    Some((shape(front)?, number(last)?))
}

fn times(words: &[String]) -> Option<usize> {
    let [word] = words else {
        return None;
    };
    number(word)
}
