use crate::answers::shown;
use crate::order::{are_objects, are_partials};
use drv_outside::Text;
use module_merge::{MergeEnd, image, is_object, is_partial, merged_module};
use std::alloc::{AllocError, Global};

/// Texts that may be made for a file.
pub const TEXTS: [&str; 13] = [
    "partial c.swift\ninternal func f() Int\n",
    "partial Shop/c.swift\n",
    "partial c.swift",
    "partial .swift\n",
    "object c.swift\n",
    "",
    "object a.swift\nglobal a 1\nfunc a:init 0 0 1\n int 1\n store a 0 1\n",
    "object a.swift\n load a 0 1\n call M:f 5 4\nend\n",
    "object a.swift\nglobal a 01\n",
    "object a.swift\nglobal  1\n",
    "object a.swift\n load a 1 1\n",
    "object a.swift\n call f 1\n",
    "object a.swift\nfunctor\n",
];

/// The object texts of modules.
pub const IMAGES: [[&str; 2]; 4] = [
    [
        "object b.swift\nglobal a 1\n load c 0 1\n",
        "object a.swift\nfunc c 0 0 1\nend\n",
    ],
    [
        "object b.swift\nglobal b 1\nglobal a 1\n",
        "object a.swift\nfunc a 0 0 1\nend\nglobal b 1\n load c 0 1\n",
    ],
    [
        "object a.swift\n load c 0 1\n",
        "object b.swift\n call b 1 1\n",
    ],
    [
        "object a.swift\n",
        "object b.swift\nglobal a 1\nglobal a 1\n",
    ],
];

/// The partial texts of a module.
pub const PARTIALS: [&str; 2] = [
    "partial c.swift\ninternal func f() Int\n",
    "partial a.swift\ninternal let a: Int\n",
];

/// What a text is.
pub fn kind_answer(text: &str) -> &'static str {
    let text = text.as_bytes();
    if is_object(text) {
        "an object text"
    } else if is_partial(text) {
        "a partial text"
    } else {
        "no text of a file"
    }
}

fn texts_of(alloc: Global, texts: &[&str]) -> Result<Vec<Text>, AllocError> {
    let mut copies = Vec::new(alloc);
    for text in texts {
        copies.push(Text::from_slice(alloc, text.as_bytes())?)?;
    }
    Ok(copies)
}

/// The image of a module, or why there is none.
pub fn image_answer(alloc: Global, objects: &[&str]) -> Result<String, AllocError> {
    let objects = texts_of(alloc, objects)?;
    if !are_objects(&objects) {
        return String::from_str(alloc, "no object texts");
    }
    match image(alloc, "M", &objects) {
        Ok(text) => String::from_str(alloc, shown(&text)),
        Err(MergeEnd::Twice { symbol }) => format!(in alloc; "Twice \"{}\"\n", shown(&symbol)),
        Err(MergeEnd::Missing { symbol }) => format!(in alloc; "Missing \"{}\"\n", shown(&symbol)),
        Err(MergeEnd::NoMemory) => Err(AllocError),
    }
}

/// The merged module of partial texts.
pub fn module_answer(alloc: Global, partials: &[&str]) -> Result<String, AllocError> {
    let partials = texts_of(alloc, partials)?;
    if !are_partials(&partials) {
        return String::from_str(alloc, "no partial texts");
    }
    match merged_module(alloc, "M", &partials) {
        Ok(text) => String::from_str(alloc, shown(&text)),
        Err(_) => Err(AllocError),
    }
}
