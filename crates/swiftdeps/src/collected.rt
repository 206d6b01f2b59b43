//! What was read so far, and what the next item adds to it.

ghost use Rattle.std.specs.Prelude.{◌≡◌, [], Ok, IfOk, OnOk};
ghost use Rattle.std.specs.Option.{option_copied};
ghost use Rattle.bitstream.specs.Stream.{slice_seen};
ghost use Rattle.bitstream.specs.Reading.{seen};
ghost use Rattle.swiftdeps.specs.Judging.{Gives, Moves, utf8_text, seen_blob, seen_files, closed_node, closed_file, is_same_text, end_at, nothing_read, block_at, version_at, identifier_at, blob_alone, identifier_of, file_at, file_of, begun, node_at, with_node, print_at, use_at, leave_at, record_at, item_at, nodes_of, files_of, is_above_key, is_above_text};
ghost use Rattle.swiftdeps.specs.Collected.{state};

use crate::codes::{FILE, FINGERPRINT, IDENTIFIER, METADATA, NODE, RECORD_BLOCK_ID, USE};
use crate::fault::{DepsFault, Stop};
use crate::identifiers::Identifiers;
use crate::keys::key_in;
use crate::stage::{Stage, is_version};
use bitstream::Item;
use dep_key::{FileGraph, Key, Keys, Name, Node, Nodes, Path, Text};
use std::alloc::{AllocError, Global};
use std::mem;

/// What was read so far: the identifiers, the files before the last one, the path of the last one,
/// its nodes before the last one, and the key, the fingerprint and the uses of the last one.
#[derive(Drop)]
pub struct Collected {
    alloc: Global,
    stage: Stage,
    version: u64,
    identifiers: Identifiers,
    files: Vec<FileGraph>,
    path: Option<Path>,
    nodes: Vec<Node>,
    key: Option<Key>,
    print: Text,
    uses: Vec<Key>,
}

/// Whether a key is above the one before it, where there is one.
#[inline(always)]
fn is_above_key(before: Option<&Key>, key: &Key) -> bool
    ensures { result ≡ is_above_key (option_copied before.entry) key.now }
{
    match before {
        Some(before) => before.cmp(key).is_lt(),
        None => true,
    }
}

/// Whether an identifier is above the one before it, where there is one.
fn is_above_name(before: Option<&Name>, text: &str) -> bool
    ensures { result ≡ is_above_text (option_copied before.entry) text.now }
{
    match before {
        Some(before) => before.as_str().cmp(text).is_lt(),
        None => true,
    }
}

/// Whether a path is above the one before it, where there is one.
fn is_above_path(before: Option<&Path>, path: &Path) -> bool
    ensures { result ≡ is_above_text (option_copied before.entry) path.now }
{
    match before {
        Some(before) => before.cmp(path).is_lt(),
        None => true,
    }
}

/// Whether a path is the one before it.
fn is_same_path(before: Option<&Path>, path: &Path) -> bool
    ensures { result ≡ is_same_text (option_copied before.entry) path.now }
{
    match before {
        Some(before) => before == path,
        None => false,
    }
}

/// The blob of a record that has nothing else.
fn blob_alone<'b>(at: u128, ops: &[u64], blob: Option<&'b [u8]>) -> Result<&'b [u8], Stop>
    ensures { Gives (seen_blob result) (blob_alone at ops.now (slice_seen blob.entry)) }
{
    match blob {
        Some(blob) if ops.is_empty() => Ok(blob),
        _ => Err(Stop::Fault(DepsFault::RecordOrder { at })),
    }
}

/// The bytes of an identifier as a text.
fn utf8_text(at: u128, bytes: &[u8]) -> Result<&str, Stop>
    ensures { Gives (seen_blob result) (utf8_text at bytes.now) }
{
    match str::from_utf8(bytes) {
        Ok(text) => Ok(text),
        Err(_) => Err(Stop::Fault(DepsFault::NotUtf8 { at })),
    }
}

/// All items, in a vector that has room for no more. The other is left empty, and keeps its room.
fn take_all<T: Drop>(alloc: Global, items: &mut Vec<T>) -> Result<Vec<T>, AllocError>
    ensures taken { IfOk result (λ taken. taken.items ≡ items.old.items) }
    ensures emptied { OnOk result (items.new.items ≡ []) }
{
    let mut taken = Vec::with_capacity(alloc, items.len())?;
    taken.append(items)?;
    Ok(taken)
}

impl Collected {
    pub fn new(alloc: Global) -> Result<Collected, AllocError>
        ensures { IfOk result (λ made. state made ≡ nothing_read) }
    {
        let identifiers = Identifiers::new(alloc)?;
        Ok(Collected {
            alloc,
            stage: Stage::Start,
            version: 0,
            identifiers,
            files: Vec::new(alloc),
            path: None,
            nodes: Vec::new(alloc),
            key: None,
            print: Text::from_vec(Vec::new(alloc)),
            uses: Vec::new(alloc),
        })
    }

    #[cold]
    #[inline(never)]
    #[tactic(auto, unfolding(crate::specs::Judging::block_at))]
    fn take_block(&mut self, at: u128, block: u32) -> Result<(), Stop>
        ensures { Moves (state self.new) result (block_at at block (state self.old)) }
    {
        if !self.stage.takes_block() || block != RECORD_BLOCK_ID {
            return Err(Stop::Fault(DepsFault::RecordOrder { at }));
        }
        self.stage = Stage::Version;
        Ok(())
    }

    #[cold]
    #[inline(never)]
    #[tactic(auto, unfolding(crate::specs::Judging::version_at))]
    fn take_version(
        &mut self,
        is_single: bool,
        at: u128,
        ops: &[u64],
        blob: Option<&[u8]>,
    ) -> Result<(), Stop>
        ensures { Moves (state self.new) result (version_at is_single at ops.now (slice_seen blob.entry) (state self.old)) }
    {
        if !self.stage.takes_version() || blob.is_some() || ops.len() != 1 {
            return Err(Stop::Fault(DepsFault::RecordOrder { at }));
        }
        let found = ops[0];
        if !is_version(is_single, found) {
            return Err(Stop::Fault(DepsFault::Version { found }));
        }
        self.stage = Stage::Names;
        self.version = found;
        Ok(())
    }

    #[tactic(auto, unfolding(crate::specs::Judging::identifier_at))]
    fn take_identifier(&mut self, at: u128, ops: &[u64], blob: Option<&[u8]>) -> Result<(), Stop>
        ensures { Moves (state self.new) result (identifier_at at ops.now (slice_seen blob.entry) (state self.old)) }
    {
        if !self.stage.takes_identifier() {
            return Err(Stop::Fault(DepsFault::RecordOrder { at }));
        }
        let bytes = blob_alone(at, ops, blob)?;
        self.add_identifier(at, bytes)
    }

    #[tactic(auto, unfolding(crate::specs::Judging::identifier_of))]
    fn add_identifier(&mut self, at: u128, bytes: &[u8]) -> Result<(), Stop>
        ensures { Moves (state self.new) result (identifier_of at bytes.now (state self.old)) }
    {
        let text = utf8_text(at, bytes)?;
        if text.is_empty() || !is_above_name(self.identifiers.last(), text) {
            return Err(Stop::Fault(DepsFault::NotCanonicalOrder { at }));
        }
        let name = Name::from_str(self.alloc, text)?;
        self.identifiers.push(name)?;
        Ok(())
    }

    /// Puts the last node behind the other nodes of its file.
    fn close_node(&mut self) -> Result<(), Stop>
        ensures { Moves (state self.new) result (Ok (closed_node (state self.old))) }
    {
        let uses = take_all(self.alloc, &mut self.uses)?;
        let uses = Keys::from_vec(uses);
        let print = mem::replace(&mut self.print, Text::from_vec(Vec::new(self.alloc)));
        if let Some(key) = self.key.take() {
            self.nodes.push(Node { key, print, uses })?;
        }
        Ok(())
    }

    /// Puts the last file behind the other files.
    #[cold]
    #[inline(never)]
    fn close_file(&mut self) -> Result<(), Stop>
        ensures { Moves (state self.new) result (Ok (closed_file (state self.old))) }
    {
        self.close_node()?;
        let nodes = take_all(self.alloc, &mut self.nodes)?;
        let nodes = Nodes::from_vec(nodes);
        if let Some(path) = self.path.take() {
            self.files.push(FileGraph { path, nodes })?;
        }
        Ok(())
    }

    #[cold]
    #[inline(never)]
    #[tactic(auto, unfolding(crate::specs::Judging::file_at))]
    fn take_file(
        &mut self,
        is_single: bool,
        at: u128,
        ops: &[u64],
        blob: Option<&[u8]>,
    ) -> Result<(), Stop>
        ensures { Moves (state self.new) result (file_at is_single at ops.now (slice_seen blob.entry) (state self.old)) }
    {
        if !self.stage.takes_file(is_single) || blob.is_some() || ops.len() != 1 {
            return Err(Stop::Fault(DepsFault::RecordOrder { at }));
        }
        let name = self.identifiers.text(at, ops[0])?;
        let path = Path::from_str(self.alloc, name.as_str())?;
        self.add_file(at, path)
    }

    fn add_file(&mut self, at: u128, path: Path) -> Result<(), Stop>
        ensures { Moves (state self.new) result (file_of at path (state self.old)) }
    {
        if is_same_path(self.path.as_ref(), &path) {
            return Err(Stop::Fault(DepsFault::FileRepeated { path }));
        }
        if path.as_str().is_empty() || !is_above_path(self.path.as_ref(), &path) {
            return Err(Stop::Fault(DepsFault::NotCanonicalOrder { at }));
        }
        self.close_file()?;
        self.stage = Stage::Nodes;
        self.path = Some(path);
        Ok(())
    }

    #[tactic(auto, unfolding(crate::specs::Judging::node_at))]
    fn take_node(&mut self, at: u128, ops: &[u64], blob: Option<&[u8]>) -> Result<(), Stop>
        ensures { Moves (state self.new) result (node_at at ops.now (slice_seen blob.entry) (state self.old)) }
    {
        if !self.stage.takes_node() {
            return Err(Stop::Fault(DepsFault::RecordOrder { at }));
        }
        let key = key_in(&self.identifiers, at, ops, blob)?;
        if !is_above_key(self.key.as_ref(), &key) {
            return Err(Stop::Fault(DepsFault::NotCanonicalOrder { at }));
        }
        self.close_node()?;
        self.stage = Stage::Print;
        self.key = Some(key);
        Ok(())
    }

    #[tactic(auto, unfolding(crate::specs::Judging::print_at))]
    fn take_print(&mut self, at: u128, ops: &[u64], blob: Option<&[u8]>) -> Result<(), Stop>
        ensures { Moves (state self.new) result (print_at at ops.now (slice_seen blob.entry) (state self.old)) }
    {
        if !self.stage.takes_print() {
            return Err(Stop::Fault(DepsFault::RecordOrder { at }));
        }
        let bytes = blob_alone(at, ops, blob)?;
        let print = Text::from_slice(self.alloc, bytes)?;
        self.stage = Stage::Uses;
        self.print = print;
        Ok(())
    }

    #[inline(always)]
    #[tactic(auto, unfolding(crate::specs::Judging::use_at))]
    fn take_use(&mut self, at: u128, ops: &[u64], blob: Option<&[u8]>) -> Result<(), Stop>
        ensures { Moves (state self.new) result (use_at at ops.now (slice_seen blob.entry) (state self.old)) }
    {
        if !self.stage.takes_use() {
            return Err(Stop::Fault(DepsFault::RecordOrder { at }));
        }
        let key = key_in(&self.identifiers, at, ops, blob)?;
        if !is_above_key(self.uses.last(), &key) {
            return Err(Stop::Fault(DepsFault::NotCanonicalOrder { at }));
        }
        self.uses.push(key)?;
        Ok(())
    }

    #[cold]
    #[inline(never)]
    #[tactic(auto, unfolding(crate::specs::Judging::leave_at))]
    fn take_leave(&mut self, is_single: bool, at: u128) -> Result<(), Stop>
        ensures { Moves (state self.new) result (leave_at is_single at (state self.old)) }
    {
        if !self.stage.may_end(is_single) {
            return Err(Stop::Fault(DepsFault::RecordOrder { at }));
        }
        self.stage = Stage::Behind;
        Ok(())
    }

    #[inline(always)]
    #[tactic(auto, unfolding(crate::specs::Judging::record_at))]
    fn take_record(
        &mut self,
        is_single: bool,
        at: u128,
        code: u64,
        ops: &[u64],
        blob: Option<&[u8]>,
    ) -> Result<(), Stop>
        ensures { Moves (state self.new) result (record_at is_single at code ops.now (slice_seen blob.entry) (state self.old)) }
    {
        match code {
            METADATA => self.take_version(is_single, at, ops, blob),
            NODE => self.take_node(at, ops, blob),
            FINGERPRINT => self.take_print(at, ops, blob),
            USE => self.take_use(at, ops, blob),
            IDENTIFIER => self.take_identifier(at, ops, blob),
            FILE => self.take_file(is_single, at, ops, blob),
            _ => Err(Stop::Fault(DepsFault::RecordOrder { at })),
        }
    }

    /// Takes the item that begins at a bit.
    #[inline(always)]
    #[tactic(auto, using(crate::proofs::LongLaws::long_record))]
    pub fn take(&mut self, is_single: bool, at: u128, item: &Item<'_>) -> Result<(), Stop>
        ensures { Moves (state self.new) result (item_at is_single at (seen item.now) (state self.old)) }
    {
        match item {
            Item::Enter { block } => self.take_block(at, *block),
            Item::Leave => self.take_leave(is_single, at),
            Item::Rec { code, ops, blob } => match ops.as_slice() {
                Some(ops) => self.take_record(is_single, at, *code, ops, *blob),
                // No record has so many operands.
                None => Err(Stop::Fault(DepsFault::RecordOrder { at })),
            },
            Item::End => Err(Stop::Fault(DepsFault::RecordOrder { at })),
        }
    }

    /// The version and the files, where the input ends behind the block, at a bit.
    pub fn end(self, at: u128) -> Result<(u64, Vec<FileGraph>), Stop>
        ensures { Gives (seen_files result) (end_at at (state self)) }
    {
        if !self.stage.is_behind() {
            return Err(Stop::Fault(DepsFault::RecordOrder { at }));
        }
        let mut collected = self;
        collected.close_file()?;
        let Collected { version, files, .. } = collected;
        Ok((version, files))
    }
}
