/// What the words of the command line ask for.
#[derive(Clone, Copy)]
pub enum Task {
    Table,
    /// The work for so many files.
    Work(usize),
}

impl Task {
    /// None where the words ask for nothing that there is.
    pub fn from_words(words: &[String]) -> Option<Task> {
        let Some((word, rest)) = words.split_first() else {
            return Some(Task::Table);
        };
        match word.as_str() {
            "work" => Some(Task::Work(files(rest)?)),
            _ => None,
        }
    }
}

fn files(words: &[String]) -> Option<usize> {
    let [word] = words else {
        return None;
    };
    word.as_str().parse().ok()
}
