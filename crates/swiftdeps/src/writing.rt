//! The one spelling that is written.

ghost use Rattle.std.specs.Prelude.{◌≡◌, ◌∷◌, [], OnOk, IfOk, Some, None, map, IsTrue, false};
ghost use Rattle.std.specs.List.{AllByRecursion, flat_map};
ghost use Rattle.bitstream.specs.Reading.{Record, Enters};
ghost use Rattle.bitstream.specs.Writer.{writing};
ghost use Rattle.swiftdeps.specs.declared.codes.TheConstants.{RECORD_BLOCK_ID, FINGERPRINT, IDENTIFIER};
ghost use Rattle.swiftdeps.specs.Stages.{is_version};
ghost use Rattle.swiftdeps.specs.Spelling.{BytesSpell, key_numbers, node_items, file_items, identifier_item};
ghost use Rattle.swiftdeps.specs.Shown.{Shows, AlsoShows, StandsForSpelling};
ghost use Rattle.swiftdeps.specs.Written.{InBlock, IsByte, IsStream, IsWritten, IsWritable, AreWritable, with_items, records, begun_block};

use crate::codes::{
    FILE, FINGERPRINT, FINGERPRINT_ABBREV, ID_WIDTH, IDENTIFIER, IDENTIFIER_ABBREV, METADATA, NODE,
    RECORD_BLOCK_ID, SIGNATURE, USE,
};
use crate::fault::{DEPENDENCIES_VERSION, Header};
use crate::names::{Names, names_in};
use crate::utf8::utf8_files;
use bitstream::{AbbrevOp, BitWriter, NoMemory};
use dep_key::{FileGraph, Key, Node, Text};
use std::alloc::Global;
use std::slice;

/// Writes a record that has a key.
fn put_key(writer: &mut BitWriter, code: u64, names: &Names, key: &Key) -> Result<(), NoMemory>
    requires block { InBlock (writing writer.old) }
    ensures written { OnOk result (writing writer.new ≡ with_items (Record code (key_numbers names.now key.now) None ∷ []) (writing writer.old)) }
    ensures shown { OnOk result (AlsoShows (Record code (key_numbers names.now key.now) None ∷ []) (writing writer.old) (writing writer.new)) }
{
    let context = names.number_of(key.context.as_str());
    let name = names.number_of(key.name.as_str());
    let ops = [key.kind.number(), key.aspect.number(), context, name];
    writer.put_rec(code, &ops)?;
    Ok(())
}

/// Writes an identifier.
fn put_identifier(writer: &mut BitWriter, text: &str) -> Result<(), NoMemory>
    requires { InBlock (writing writer.old) }
    ensures written { OnOk result (writing writer.new ≡ with_items (Record IDENTIFIER [] (Some text.now) ∷ []) (writing writer.old)) }
    ensures shown { OnOk result (AlsoShows (Record IDENTIFIER [] (Some text.now) ∷ []) (writing writer.old) (writing writer.new)) }
{
    writer.put_blob(IDENTIFIER_ABBREV, text.as_bytes())?;
    Ok(())
}

/// Writes the fingerprint of a node.
fn put_print(writer: &mut BitWriter, print: &[u8]) -> Result<(), NoMemory>
    requires { InBlock (writing writer.old) }
    ensures written { OnOk result (writing writer.new ≡ with_items (Record FINGERPRINT [] (Some print.now) ∷ []) (writing writer.old)) }
    ensures shown { OnOk result (AlsoShows (Record FINGERPRINT [] (Some print.now) ∷ []) (writing writer.old) (writing writer.new)) }
{
    writer.put_blob(FINGERPRINT_ABBREV, print)?;
    Ok(())
}

fn put_node(writer: &mut BitWriter, names: &Names, node: &Node) -> Result<(), NoMemory>
    requires block { InBlock (writing writer.old) }
    ensures written { OnOk result (writing writer.new ≡ with_items (node_items names.now node.now) (writing writer.old)) }
    ensures shown { OnOk result (AlsoShows (node_items names.now node.now) (writing writer.old) (writing writer.new)) }
{
    put_key(writer, NODE, names, &node.key)?;
    put_print(writer, node.print.as_slice())?;
    for key in node.uses.as_slice() {
        put_key(writer, USE, names, key)?;
    }
    Ok(())
}

fn put_file(writer: &mut BitWriter, names: &Names, file: &FileGraph) -> Result<(), NoMemory>
    requires block { InBlock (writing writer.old) }
    ensures written { OnOk result (writing writer.new ≡ with_items (file_items names.now file.now) (writing writer.old)) }
    ensures shown { OnOk result (AlsoShows (file_items names.now file.now) (writing writer.old) (writing writer.new)) }
{
    let path = names.number_of(file.path.as_str());
    writer.put_rec(FILE, &[path])?;
    for node in file.nodes.as_slice() {
        put_node(writer, names, node)?;
    }
    Ok(())
}

fn put_identifiers(writer: &mut BitWriter, names: &Names) -> Result<(), NoMemory>
    requires { InBlock (writing writer.old) }
    ensures written { OnOk result (writing writer.new ≡ with_items (map identifier_item names.now) (writing writer.old)) }
    ensures shown { OnOk result (AlsoShows (map identifier_item names.now) (writing writer.old) (writing writer.new)) }
{
    for name in names.as_slice() {
        put_identifier(writer, name.as_str())?;
    }
    Ok(())
}

fn put_files(writer: &mut BitWriter, names: &Names, files: &[FileGraph]) -> Result<(), NoMemory>
    requires block { InBlock (writing writer.old) }
    ensures written { OnOk result (writing writer.new ≡ with_items (flat_map (file_items names.now) files.now) (writing writer.old)) }
    ensures shown { OnOk result (AlsoShows (flat_map (file_items names.now) files.now) (writing writer.old) (writing writer.new)) }
{
    for file in files {
        put_file(writer, names, file)?;
    }
    Ok(())
}

/// A writer inside the block, with its two abbreviations.
fn begin(alloc: Global) -> Result<BitWriter, NoMemory>
    ensures written { IfOk result (λ writer. writing writer ≡ begun_block) }
    ensures shown { IfOk result (λ writer. Shows (Enters RECORD_BLOCK_ID ∷ []) (writing writer)) }
{
    let mut writer = BitWriter::new(alloc);
    writer.enter(RECORD_BLOCK_ID, ID_WIDTH)?;
    writer.define(&[AbbrevOp::Literal(IDENTIFIER), AbbrevOp::Blob])?;
    writer.define(&[AbbrevOp::Literal(FINGERPRINT), AbbrevOp::Blob])?;
    Ok(writer)
}

/// The elements of a slice of bytes are bytes.
fn are_bytes(bytes: &[u8])
    ensures { AllByRecursion IsByte bytes.now }
{}

/// The bits of the block, with all records, to its end.
fn write_block(alloc: Global, version: u64, files: &[FileGraph]) -> Result<Vec<u8>, NoMemory>
    ensures written { IfOk result (λ stream. IsStream version files.now stream.items) }
    ensures stands { IfOk result (λ stream. StandsForSpelling version files.now stream.items) }
{
    let names = names_in(alloc, files)?;
    let mut writer = begin(alloc)?;
    writer.put_rec(METADATA, &[version])?;
    put_identifiers(&mut writer, &names)?;
    put_files(&mut writer, &names, files)?;
    writer.leave()?;
    let stream = writer.into_bytes().into_vec();
    are_bytes(&stream);
    Ok(stream)
}

fn write(alloc: Global, version: u64, files: &[FileGraph]) -> Result<Text, NoMemory>
    ensures written { IfOk result (λ text. IsWritten version files.now text) }
    ensures read_back { IfOk result (λ text. AreWritable files.now → BytesSpell version files.now text) }
{
    utf8_files(files);
    let stream = write_block(alloc, version, files)?;
    let mut bytes = Vec::from_slice(alloc, SIGNATURE.as_slice())?;
    bytes.extend_from_slice(stream.as_slice())?;
    Ok(Text::from_vec(bytes))
}

/// The one spelling of the file graphs of any number of files, with a version.
///
/// The paths strictly ascend and are filled, the keys have their shape, and the nodes and their uses
/// are in order.
pub fn encode_all(
    alloc: Global,
    header: Header,
    files: &[FileGraph],
) -> Result<Text, dep_key::NoMemory>
    requires version { IsTrue (is_version false header.version) }
    requires files { AreWritable files.now }
    ensures written { IfOk result (λ text. IsWritten header.version files.now text) }
    // What is written is read back.
    ensures read_back { IfOk result (λ text. BytesSpell header.version files.now text) }
{
    match write(alloc, header.version, files) {
        Ok(text) => Ok(text),
        Err(_) => Err(dep_key::NoMemory),
    }
}

/// The one spelling of the file graph of one file, with version 2.
///
/// The path is filled, the keys have their shape, and the nodes and their uses are in order.
pub fn encode(alloc: Global, graph: &FileGraph) -> Result<Text, dep_key::NoMemory>
    requires { IsWritable graph.now }
    ensures written { IfOk result (λ text. IsWritten 2 (graph.now ∷ []) text) }
    // What is written is read back.
    ensures read_back { IfOk result (λ text. BytesSpell 2 (graph.now ∷ []) text) }
{
    match write(alloc, DEPENDENCIES_VERSION, slice::from_ref(graph)) {
        Ok(text) => Ok(text),
        Err(_) => Err(dep_key::NoMemory),
    }
}
