//! The identifiers that file graphs use, and their numbers.

ghost use Rattle.std.specs.Prelude.{◌≡◌, ◌<◌, ◌^◌, ◌∷◌, [], map, string_bytes, IsPermutation, OnOk, IfOk};
ghost use Rattle.swiftdeps.specs.Spelling.{AreAscendingTexts, place_of, number_of};
ghost use Rattle.swiftdeps.specs.Written.{key_texts, node_texts, file_texts, texts_in, Adds, AreNamesOf};

use bitstream::NoMemory;
use dep_key::{FileGraph, Key, Node};
use indexmap::IndexSet;
use std::alloc::Global;
use std::marker::Model;

/// Texts, each once, each found by its hash.
///
/// Contracts see the list of the texts.
#[derive(Drop)]
struct TextSet {
    texts: IndexSet<String>,
}

impl Model for TextSet {
    ghost use Rattle.std.specs.Prelude.{List, ℕ, map, string_bytes};

    ghost Value = { List (List ℕ) };

    ghost view = { λ s. map string_bytes s.texts.keys };
}

impl TextSet {
    fn new(alloc: Global) -> TextSet
        ensures { result ≡ [] }
    {
        TextSet {
            texts: IndexSet::new(alloc),
        }
    }

    /// Adds a text, where it is filled and not yet there.
    fn add(&mut self, alloc: Global, text: &str) -> Result<(), NoMemory>
        ensures { OnOk result (Adds (text.now ∷ []) self.old self.new) }
    {
        if text.is_empty() {
            return Ok(());
        }
        if self.texts.contains(text) {
            return Ok(());
        }
        let text = String::from_str(alloc, text)?;
        self.texts.insert(text)?;
        Ok(())
    }

    /// The texts in order.
    fn sorted(&self) -> Result<TextSet, NoMemory>
        ensures permutation { IfOk result (λ sorted. IsPermutation self.now sorted) }
        ensures ascending { IfOk result (λ sorted. AreAscendingTexts sorted) }
    {
        let mut texts = self.texts.clone()?;
        texts.sort()?;
        Ok(TextSet { texts })
    }

    fn as_slice(&self) -> &[String]
        ensures { map string_bytes result.now ≡ self.now }
    {
        self.texts.as_slice()
    }

    /// Where a text stands, and how many texts there are where it isn't one of them.
    fn place_of(&self, text: &str) -> usize
        ensures place { result ≡ place_of self.now text.now }
        ensures small { result < 2 ^ 63 }
    {
        let count = self.texts.len();
        match self.texts.get_index_of(text) {
            Some(place) => place,
            None => count,
        }
    }

    /// The number of a text: 0 for the empty one, and else its place, from 1.
    fn number_of(&self, text: &str) -> u64
        ensures { result ≡ number_of self.now text.now }
    {
        if text.is_empty() {
            return 0;
        }
        self.place_of(text) as u64 + 1
    }
}

/// The numbers of some texts among sorted ones.
fn numbers_of(alloc: Global, sorted: &TextSet, met: &TextSet) -> Result<Vec<u64>, NoMemory>
    ensures { IfOk result (λ numbers. numbers.items ≡ map (number_of sorted.now) met.now) }
{
    let mut numbers = Vec::new(alloc);
    for text in met.as_slice() {
        let number = sorted.number_of(text.as_str());
        numbers.push(number)?;
    }
    Ok(numbers)
}

/// Identifiers with their numbers.
///
/// Contracts see the list of the identifiers.
// A text is looked up among those in the order in which they were met, since texts that are used together
// were mostly met together.
#[derive(Drop)]
pub struct Names {
    sorted: TextSet,
    met: TextSet,
    numbers: Vec<u64>,
}

impl Model for Names {
    ghost use Rattle.std.specs.Prelude.{◌≡◌, List, ℕ, map};
    ghost use Rattle.swiftdeps.specs.Spelling.{number_of};

    ghost Value = { List (List ℕ) };

    ghost view = { λ n. n.sorted };

    ghost invariant = { λ n. n.numbers.items ≡ map (number_of n.sorted) n.met };
}

impl Names {
    /// The texts in order, as identifiers.
    fn of(alloc: Global, met: TextSet) -> Result<Names, NoMemory>
        ensures permutation { IfOk result (λ names. IsPermutation met names) }
        ensures ascending { IfOk result (λ names. AreAscendingTexts names) }
    {
        let sorted = met.sorted()?;
        let numbers = numbers_of(alloc, &sorted, &met)?;
        Ok(Names {
            sorted,
            met,
            numbers,
        })
    }

    /// The identifiers as a slice.
    pub fn as_slice(&self) -> &[String]
        ensures { map string_bytes result.now ≡ self.now }
    {
        self.sorted.as_slice()
    }

    /// The number of a text: 0 for the empty one, and else its place among the identifiers, from 1.
    pub fn number_of(&self, text: &str) -> u64
        ensures { result ≡ number_of self.now text.now }
    {
        if text.is_empty() {
            return 0;
        }
        let place = self.met.place_of(text);
        match self.numbers.get(place) {
            Some(number) => *number,
            None => self.sorted.number_of(text),
        }
    }
}

fn add_key(alloc: Global, texts: &mut TextSet, key: &Key) -> Result<(), NoMemory>
    ensures { OnOk result (Adds (key_texts key.now) texts.old texts.new) }
{
    texts.add(alloc, key.context.as_str())?;
    texts.add(alloc, key.name.as_str())?;
    Ok(())
}

fn add_node(alloc: Global, texts: &mut TextSet, node: &Node) -> Result<(), NoMemory>
    ensures { OnOk result (Adds (node_texts node.now) texts.old texts.new) }
{
    add_key(alloc, texts, &node.key)?;
    for key in node.uses.as_slice() {
        add_key(alloc, texts, key)?;
    }
    Ok(())
}

fn add_file(alloc: Global, texts: &mut TextSet, file: &FileGraph) -> Result<(), NoMemory>
    ensures { OnOk result (Adds (file_texts file.now) texts.old texts.new) }
{
    texts.add(alloc, file.path.as_str())?;
    for node in file.nodes.as_slice() {
        add_node(alloc, texts, node)?;
    }
    Ok(())
}

fn add_files(alloc: Global, texts: &mut TextSet, files: &[FileGraph]) -> Result<(), NoMemory>
    ensures { OnOk result (Adds (texts_in files.now) texts.old texts.new) }
{
    for file in files {
        add_file(alloc, texts, file)?;
    }
    Ok(())
}

/// The identifiers: the filled texts of the files, each once, strictly ascending.
pub fn names_in(alloc: Global, files: &[FileGraph]) -> Result<Names, NoMemory>
    ensures { IfOk result (λ names. AreNamesOf files.now names) }
{
    let mut met = TextSet::new(alloc);
    add_files(alloc, &mut met, files)?;
    let names = Names::of(alloc, met)?;
    Ok(names)
}
