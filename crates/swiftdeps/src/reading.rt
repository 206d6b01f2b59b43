//! File graphs in the bytes of a file.

ghost use Rattle.std.specs.Prelude.{◌≡◌, ◌≢◌, ◌∷◌, [], ℕ, List, IsTrue, IfOk, IfErr, Some, Ok, Err, false, true};
ghost use Rattle.bitstream.specs.Items.{items_in};
ghost use Rattle.std.specs.Option.{option_copied};
ghost use Rattle.bitstream.specs.declared.item.BitFault.TheVariants as bits;
ghost use Rattle.dep_key.specs.declared.graph.FileGraph.{FileGraph};
ghost use Rattle.swiftdeps.specs.declared.fault.DepsFault.TheVariants.{Bits, FileRepeated, NoMemory};
ghost use Rattle.swiftdeps.specs.Judging.{Gives, seen_files};
ghost use Rattle.swiftdeps.specs.Spelling.{BytesSpell};
ghost use Rattle.swiftdeps.specs.Stages.{is_version};
ghost use Rattle.swiftdeps.specs.Streams.{stream_of, bytes_judged};

use crate::codes::{SIGNATURE, SIGNATURE_BYTES};
use crate::fault::{DepsFault, Header, Stop};
use crate::stream::read;
use dep_key::FileGraph;
use std::alloc::Global;

/// The bitstream behind the signature, where that is there.
fn stream_of(bytes: &[u8]) -> Option<&[u8]>
    ensures { option_copied result ≡ stream_of bytes.now }
{
    if bytes.len() < SIGNATURE_BYTES {
        return None;
    }
    let (front, stream) = bytes.split_at(SIGNATURE_BYTES);
    if front == SIGNATURE.as_slice() {
        Some(stream)
    } else {
        None
    }
}

#[tactic(auto, unfolding(crate::specs::Streams::bytes_judged))]
fn read_bytes(alloc: Global, is_single: bool, bytes: &[u8]) -> Result<(u64, Vec<FileGraph>), Stop>
    ensures read { Gives (seen_files result) (bytes_judged is_single bytes.now) }
    ensures memory { (stream : List ℕ) → stream_of bytes.now ≡ Some stream → (items_in stream).1 ≢ Some bits.NoMemory }
{
    match stream_of(bytes) {
        Some(stream) => read(alloc, is_single, stream),
        None => Err(Stop::Fault(DepsFault::Signature)),
    }
}

/// The version and the file graphs that the bytes hold, of any number of files. The version is 2 or
/// 3.
///
/// Bytes that hold none are refused at their first fault.
pub fn read_all(alloc: Global, bytes: &[u8]) -> Result<(Header, Vec<FileGraph>), DepsFault>
    // What is read is spelled so.
    ensures read { IfOk result (λ x. BytesSpell x.0.version x.1.items bytes.now) }
    ensures version { IfOk result (λ x. IsTrue (is_version false x.0.version)) }
    // What is spelled so is read, unless memory runs out.
    ensures spelled { (version : ℕ) (files : List FileGraph) → IsTrue (is_version false version) → BytesSpell version files bytes.now → IfErr result (λ e. e ≡ NoMemory) }
    // Which fault it is, and that there is none where the bytes are read.
    ensures fault { IfErr result (λ e. e ≢ NoMemory → bytes_judged false bytes.now ≡ Err e) }
    ensures no_fault { IfOk result (λ x. bytes_judged false bytes.now ≡ Ok (x.0.version, x.1.items)) }
    ensures memory { IfErr result (λ e. e ≢ Bits bits.NoMemory) }
{
    match read_bytes(alloc, false, bytes) {
        Ok((version, files)) => Ok((Header { version }, files)),
        Err(Stop::Memory) => Err(DepsFault::NoMemory),
        Err(Stop::Fault(fault)) => Err(fault),
    }
}

/// The file graph that the bytes hold, of one file alone. The version is 2.
///
/// Bytes that hold none are refused at their first fault.
pub fn decode(alloc: Global, bytes: &[u8]) -> Result<FileGraph, DepsFault>
    // What is read is spelled so.
    ensures read { IfOk result (λ graph. BytesSpell 2 (graph ∷ []) bytes.now) }
    // What is spelled so is read, unless memory runs out.
    ensures spelled { (graph : FileGraph) → BytesSpell 2 (graph ∷ []) bytes.now → IfErr result (λ e. e ≡ NoMemory) }
    // Which fault it is, and that there is none where the bytes are read.
    ensures fault { IfErr result (λ e. e ≢ NoMemory → bytes_judged true bytes.now ≡ Err e) }
    ensures no_fault { IfOk result (λ graph. bytes_judged true bytes.now ≡ Ok (2, graph ∷ [])) }
    ensures memory { IfErr result (λ e. e ≢ Bits bits.NoMemory) }
    ensures repeated { IfErr result (λ e. (path : List ℕ) → e ≢ FileRepeated path) }
{
    match read_bytes(alloc, true, bytes) {
        Ok((_, mut files)) => Ok(files.remove(0)),
        Err(Stop::Memory) => Err(DepsFault::NoMemory),
        Err(Stop::Fault(fault)) => Err(fault),
    }
}
