//! That all texts of file graphs are UTF-8, as it is known of each `&str`. These calls only go over
//! the texts.

ghost use Rattle.std.specs.Prelude.{IsUtf8};
ghost use Rattle.std.specs.List.{flat_map, AllByRecursion};
ghost use Rattle.swiftdeps.specs.Written.{key_texts, node_texts, file_texts, texts_in};

use dep_key::{FileGraph, Key, Node};

fn utf8_text(text: &str)
    ensures { IsUtf8 text.now }
{
    let _bytes = text.as_bytes();
}

fn utf8_key(key: &Key)
    ensures { AllByRecursion IsUtf8 (key_texts key.now) }
{
    utf8_text(key.context.as_str());
    utf8_text(key.name.as_str());
}

fn utf8_keys(keys: &[Key])
    ensures { AllByRecursion IsUtf8 (flat_map key_texts keys.now) }
{
    for key in keys {
        utf8_key(key);
    }
}

fn utf8_node(node: &Node)
    ensures { AllByRecursion IsUtf8 (node_texts node.now) }
{
    utf8_key(&node.key);
    utf8_keys(node.uses.as_slice());
}

fn utf8_nodes(nodes: &[Node])
    ensures { AllByRecursion IsUtf8 (flat_map node_texts nodes.now) }
{
    for node in nodes {
        utf8_node(node);
    }
}

fn utf8_file(file: &FileGraph)
    ensures { AllByRecursion IsUtf8 (file_texts file.now) }
{
    utf8_text(file.path.as_str());
    utf8_nodes(file.nodes.as_slice());
}

/// All texts of the files are UTF-8.
pub fn utf8_files(files: &[FileGraph])
    ensures { AllByRecursion IsUtf8 (texts_in files.now) }
{
    for file in files {
        utf8_file(file);
    }
}
