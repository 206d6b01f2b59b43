ghost use Rattle.std.specs.Prelude.{◌≡◌, false, true, Ok, Err, IsTrue, MatchOption, MatchResult};
ghost use Rattle.output_names.specs.ModuleNames.{is_module_name};
ghost use Rattle.driver_cmd.specs.Command.{IsFolderName, module_of, option_of, request_of};

use drv_outside::Text;
use output_names::is_module_name;

/// The project folder that the first word of a command line names: a text that isn't empty, since
/// an empty one would be the root of the file system once a name stands behind it.
pub fn folder_name(word: &Text) -> Option<&str>
    ensures { MatchOption result (¬ IsFolderName word.now) (λ folder. (folder.now ≡ word.now) × IsFolderName word.now) }
{
    let word = word.as_slice();
    if word.is_empty() {
        return None;
    }
    match str::from_utf8(word) {
        Ok(folder) => Some(folder),
        Err(_) => None,
    }
}

// The module name that a word is, if it is one.
fn module_name(word: &Text) -> Option<&str>
    ensures { MatchOption result (is_module_name word.now ≡ false) (λ name. (name.now ≡ word.now) × (is_module_name word.now ≡ true)) }
{
    let word = word.as_slice();
    if !is_module_name(word) {
        return None;
    }
    match str::from_utf8(word) {
        Ok(name) => Some(name),
        Err(_) => None,
    }
}

// The module name, from the third word on.
fn read_module(words: &[Text]) -> Result<&str, usize>
    ensures { MatchResult result (λ name. (module_of words.now ≡ Ok name.now) × IsTrue (is_module_name name.now)) (λ at. module_of words.now ≡ Err at) }
{
    match words {
        [] => Err(2),
        [word, rest @ ..] => match module_name(word) {
            None => Err(2),
            Some(name) => match rest {
                [] => Ok(name),
                _ => Err(3),
            },
        },
    }
}

// The module name, from the second word on.
fn read_option(words: &[Text]) -> Result<&str, usize>
    ensures { MatchResult result (λ name. (option_of words.now ≡ Ok name.now) × IsTrue (is_module_name name.now)) (λ at. option_of words.now ≡ Err at) }
{
    match words {
        [] => Err(1),
        [word, rest @ ..] => {
            if word.as_slice() == b"-module-name".as_slice() {
                read_module(rest)
            } else {
                Err(1)
            }
        }
    }
}

/// The name of the module that a command asks to build, or the first place whose word, after those
/// before it, begins no accepted command, or the number of words where more are needed.
pub fn read_request(words: &[Text]) -> Result<&str, usize>
    ensures { MatchResult result (λ name. (request_of words.now ≡ Ok name.now) × IsTrue (is_module_name name.now)) (λ at. request_of words.now ≡ Err at) }
{
    match words {
        [] => Err(0),
        [word, rest @ ..] => {
            if word.as_slice() == b"build".as_slice() {
                read_option(rest)
            } else {
                Err(0)
            }
        }
    }
}
