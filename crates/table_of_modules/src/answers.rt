//! What modules come to, as it is printed.

use crate::modules::{Module, Source};
use crate::nodes::put_graph;
use anyhow::{Error, anyhow};
use decl_index::Index;
use dep_key::{NoMemory, Path};
use diag_text::{Diag, lines};
use frontend::{Parsed, parse};
use module_compile::{CompiledFile, FileTexts, Outcome, compile_module};
use std::alloc::Global;
use swift_ast::FileTree;

// The trees of a module's files, and the error of each file without one.
#[derive(Drop)]
struct Trees {
    errors: Vec<Diag>,
    trees: Vec<FileTree>,
}

// What is printed of a module, part by part.
#[derive(Drop)]
struct Parts {
    errors: Vec<u8>,
    objects: Vec<u8>,
    partials: Vec<u8>,
    nodes: Vec<u8>,
}

fn parsed(alloc: Global, source: &Source) -> Result<Parsed, NoMemory> {
    let path = Path::from_str(alloc, source.path.as_str())?;
    parse(alloc, path, source.text.as_bytes())
}

fn trees_of(alloc: Global, module: &Module) -> Result<Trees, NoMemory> {
    let mut errors = Vec::new(alloc);
    let mut trees = Vec::new(alloc);
    for source in &module.sources {
        match parsed(alloc, source)? {
            Parsed::Tree(tree) => trees.push(tree)?,
            Parsed::NoTree(error) => errors.push(error)?,
        }
    }
    Ok(Trees { errors, trees })
}

// Puts a part of a file's answers with its kind and path before it.
fn put_part(
    alloc: Global,
    out: &mut Vec<u8>,
    kind: &str,
    path: &str,
    text: &[u8],
) -> Result<(), NoMemory> {
    let head = format!(in alloc; "# {kind} {path}\n")?;
    out.extend_from_slice(head.as_bytes())?;
    out.extend_from_slice(text)?;
    Ok(())
}

// Puts what a compiled file comes to, and its nodes.
fn put_file(alloc: Global, parts: &mut Parts, file: &CompiledFile) -> Result<(), NoMemory> {
    let path = file.graph.path.as_str();
    match &file.outcome {
        Outcome::Errors(found) => {
            let printed = lines(alloc, found.as_slice())?;
            parts.errors.extend_from_slice(printed.as_slice())?;
        }
        Outcome::Texts(texts) => {
            let FileTexts { object, partial } = texts;
            put_part(alloc, &mut parts.objects, "object", path, object.as_slice())?;
            put_part(
                alloc,
                &mut parts.partials,
                "partial",
                path,
                partial.as_slice(),
            )?;
        }
    }
    put_graph(&mut parts.nodes, &file.graph)
}

fn parts_of(alloc: Global, index: &Index) -> Result<Parts, NoMemory> {
    let mut parts = Parts {
        errors: Vec::new(alloc),
        objects: Vec::new(alloc),
        partials: Vec::new(alloc),
        nodes: Vec::new(alloc),
    };
    for file in &compile_module(alloc, index)? {
        put_file(alloc, &mut parts, file)?;
    }
    Ok(parts)
}

// The errors of a module, its objects, its partial texts and its nodes.
fn module_text(alloc: Global, trees: Vec<FileTree>) -> Result<Vec<u8>, NoMemory> {
    let index = Index::new(alloc, trees)?;
    let parts = parts_of(alloc, &index)?;
    let mut text = parts.errors;
    text.extend_from_slice(&parts.objects)?;
    text.extend_from_slice(&parts.partials)?;
    text.extend_from_slice(&parts.nodes)?;
    Ok(text)
}

fn answer_bytes(alloc: Global, module: &Module) -> Result<Vec<u8>, NoMemory> {
    let Trees { errors, trees } = trees_of(alloc, module)?;
    if errors.is_empty() {
        module_text(alloc, trees)
    } else {
        let printed = lines(alloc, &errors)?;
        Ok(printed.into_vec())
    }
}

/// The error lines of a module, and of its files the object texts, the partial texts and the nodes.
pub fn module_answer(alloc: Global, module: &Module) -> Result<String, Error> {
    let Ok(bytes) = answer_bytes(alloc, module) else {
        return Err(anyhow!("out of memory"));
    };
    let text = String::from_utf8(bytes)?;
    Ok(text)
}
