//! What is read from bytes, each in one line.

use anyhow::{Error, anyhow};
use bitstream::{BitReader, Item};
use dep_key::{FileGraph, Key, Keys, Node};
use std::alloc::Global;
use swiftdeps::read_all;

fn shown_operands(alloc: Global, operands: &[u64]) -> Result<String, Error> {
    let mut shown = String::new(alloc);
    for operand in operands {
        let next = format!(in alloc; " {operand}")?;
        shown.push_str(next.as_str())?;
    }
    Ok(shown)
}

fn shown_blob(alloc: Global, blob: Option<&[u8]>) -> Result<String, Error> {
    let Some(bytes) = blob else {
        return Ok(String::new(alloc));
    };
    let text = format!(in alloc; " blob {}", hex::encode(alloc, bytes)?)?;
    Ok(text)
}

fn shown_item(alloc: Global, item: &Item<'_>) -> Result<String, Error> {
    let text = match item {
        Item::Enter { block } => format!(in alloc; "enter {block};")?,
        Item::Leave => String::from_str(alloc, "leave;")?,
        Item::Rec { code, ops, blob } => {
            let Ok(operands) = ops.to_vec(alloc) else {
                return Err(anyhow!("out of memory"));
            };
            let operands = shown_operands(alloc, &operands)?;
            let blob = shown_blob(alloc, *blob)?;
            format!(in alloc; "record {code}{operands}{blob};")?
        }
        Item::End => String::from_str(alloc, "end")?,
    };
    Ok(text)
}

/// The items of a bitstream, and behind them its first fault, where it has one.
pub fn items(alloc: Global, bytes: &[u8]) -> Result<String, Error> {
    let mut reader = BitReader::new(alloc, bytes);
    let mut shown = String::new(alloc);
    // Each item but the end has at least one bit.
    for _ in 0..=bytes.len().saturating_mul(8) {
        match reader.next() {
            Ok(item) => {
                shown.push_str(shown_item(alloc, &item)?.as_str())?;
                if matches!(item, Item::End) {
                    return Ok(shown);
                }
            }
            Err(fault) => {
                let fault = format!(in alloc; "{fault:?}")?;
                shown.push_str(fault.as_str())?;
                return Ok(shown);
            }
        }
    }
    Ok(shown)
}

/// How many records a bitstream has up to its end or its first fault.
pub fn count_records(alloc: Global, bytes: &[u8]) -> usize {
    let mut reader = BitReader::new(alloc, bytes);
    let mut records = 0usize;
    // Each item but the end has at least one bit.
    for _ in 0..=bytes.len().saturating_mul(8) {
        match reader.next() {
            Ok(Item::Rec { .. }) => records = records.saturating_add(1),
            Ok(Item::End) => return records,
            Ok(_) => {}
            Err(_) => return records,
        }
    }
    records
}

fn shown_key(alloc: Global, word: &str, key: &Key) -> Result<String, Error> {
    let (kind, aspect) = (key.kind.number(), key.aspect.number());
    let context = hex::encode(alloc, key.context.as_str().as_bytes())?;
    let name = hex::encode(alloc, key.name.as_str().as_bytes())?;
    let text = format!(in alloc; ";{word} {kind} {aspect} [{context}] [{name}]")?;
    Ok(text)
}

fn shown_uses(alloc: Global, uses: &Keys) -> Result<String, Error> {
    let mut shown = String::new(alloc);
    for key in uses.as_slice() {
        shown.push_str(shown_key(alloc, "use", key)?.as_str())?;
    }
    Ok(shown)
}

fn shown_node(alloc: Global, node: &Node) -> Result<String, Error> {
    let key = shown_key(alloc, "node", &node.key)?;
    let print = hex::encode(alloc, node.print.as_slice())?;
    let uses = shown_uses(alloc, &node.uses)?;
    let text = format!(in alloc; "{key};print {print}{uses}")?;
    Ok(text)
}

fn shown_file(alloc: Global, file: &FileGraph) -> Result<String, Error> {
    let path = hex::encode(alloc, file.path.as_str().as_bytes())?;
    let mut shown = format!(in alloc; ";file {path}")?;
    for node in file.nodes.as_slice() {
        shown.push_str(shown_node(alloc, node)?.as_str())?;
    }
    Ok(shown)
}

fn shown_files(alloc: Global, version: u64, files: &[FileGraph]) -> Result<String, Error> {
    let mut shown = format!(in alloc; "version {version}")?;
    for file in files {
        shown.push_str(shown_file(alloc, file)?.as_str())?;
    }
    Ok(shown)
}

/// The version and the file graphs that bytes hold, or their first fault.
pub fn graphs(alloc: Global, bytes: &[u8]) -> Result<String, Error> {
    match read_all(alloc, bytes) {
        Ok((header, files)) => shown_files(alloc, header.version, &files),
        Err(fault) => {
            let fault = format!(in alloc; "{fault:?}")?;
            Ok(fault)
        }
    }
}
