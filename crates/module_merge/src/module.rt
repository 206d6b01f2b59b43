ghost use Rattle.std.specs.Prelude.{◌≡◌, ◌++◌, All, IsTrue, IfOk, codes};
ghost use Rattle.module_merge.specs.ByPath.{IsByPath};
ghost use Rattle.module_merge.specs.Module.{is_partial, merged_text, IsMergedModule};

use crate::by_path::in_byte_order;
use crate::lines::{after, is_headed};
use drv_outside::{NoMemory, Text};
use std::alloc::Global;

/// Whether a text is a partial text: lines that each end with a line feed, the first of them
/// `partial PATH` with a plain path.
pub fn is_partial(text: &[u8]) -> bool
    ensures { result ≡ is_partial text.now }
{
    is_headed(b"partial ", text)
}

// The partial texts by path.
fn in_order(alloc: Global, partials: &[Text]) -> Result<Vec<Text>, NoMemory>
    requires { All (λ partial. IsTrue (is_partial partial)) partials.now }
    ensures by_path { IfOk result (λ ordered. IsByPath (codes "partial ") partials.now ordered.items) }
    ensures partial { IfOk result (λ ordered. All (λ partial. IsTrue (is_partial partial)) ordered.items) }
{
    let ordered = in_byte_order(alloc, partials)?;
    Ok(ordered)
}

// The merged module of partial texts in this order.
fn merged_text(alloc: Global, name: &str, partials: &[Text]) -> Result<Text, NoMemory>
    requires partial { All (λ partial. IsTrue (is_partial partial)) partials.now }
    ensures { IfOk result (λ merged. merged ≡ merged_text name.now partials.now) }
{
    let mut merged = Vec::new(alloc);
    merged.extend_from_slice(b"module ")?;
    merged.extend_from_slice(name.as_bytes())?;
    merged.extend_from_slice(b"\n")?;
    for partial in partials {
        merged.extend_from_slice(after(partial.as_slice(), b'\n'))?;
    }
    Ok(Text::from_vec(merged))
}

/// The merged module text: the line `module NAME`, and then the lines of each partial text without
/// its first, by path, whatever their order here. Partial texts of one path stand in byte order.
///
/// Fails only where memory is wanted and not there.
pub fn merged_module(alloc: Global, name: &str, partials: &[Text]) -> Result<Text, NoMemory>
    requires partial { All (λ partial. IsTrue (is_partial partial)) partials.now }
    ensures merged { IfOk result (λ merged. IsMergedModule name.now partials.now merged) }
{
    let ordered = in_order(alloc, partials)?;
    let merged = merged_text(alloc, name, &ordered)?;
    Ok(merged)
}
