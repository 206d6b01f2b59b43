//! The priors of a module: its dependency graph as bytes, with a digest in place of each print.
//!
//! What is written has version 3. Version 2, in which the prints stand themselves, is read too, and gives
//! the same graph.
#![tactic(auto)]

ghost use Rattle.std.specs.Prelude.{◌≡◌, ◌≢◌, ℕ, List, map, false, IsTrue, IfOk, IfErr, Err};
ghost use Rattle.bitstream.specs.declared.item.BitFault.TheVariants as bits;
ghost use Rattle.dep_key.specs.declared.graph.FileGraph.{FileGraph};
ghost use Rattle.dep_key.specs.Digests.{digested};
ghost use Rattle.swiftdeps.specs.declared.fault.DepsFault.TheVariants as faults;
ghost use Rattle.swiftdeps.specs.Streams.{bytes_judged};
ghost use Rattle.swiftdeps.specs.Written.{AreWritable, IsWritten};
ghost use Rattle.priors_store.specs.Priors.{ArePriors, recorded};

use dep_key::{Text, digested};
pub use dep_key::{FileGraph, NoMemory};
use std::alloc::Global;
use swiftdeps::{PRIORS_VERSION, encode_all, read_all};
pub use swiftdeps::{DEPENDENCIES_VERSION, DepsFault, Header};

/// File graphs with the digest of each print in its place.
fn digest_all(alloc: Global, files: Vec<FileGraph>) -> Result<Vec<FileGraph>, NoMemory>
    ensures { IfOk result (λ made. made.items ≡ map digested files.items) }
{
    let mut made = Vec::new(alloc);
    for file in files {
        let digests = digested(alloc, &file)?;
        made.push(digests)?;
    }
    Ok(made)
}

/// The graph that file graphs of a version record.
fn recorded(alloc: Global, version: u64, files: Vec<FileGraph>) -> Result<Vec<FileGraph>, NoMemory>
    ensures { IfOk result (λ made. made.items ≡ recorded version files.items) }
{
    if version == DEPENDENCIES_VERSION {
        digest_all(alloc, files)
    } else {
        Ok(files)
    }
}

/// The version of priors, and the graph that they record: its files in order of their paths.
///
/// Bytes that are no priors are refused at their first fault, which is that of `swiftdeps::read_all`.
pub fn decode(alloc: Global, bytes: &[u8]) -> Result<(Header, Vec<FileGraph>), DepsFault>
    // What is read is what they record.
    ensures read { IfOk result (λ x. ArePriors x.0.version x.1.items bytes.now) }
    // They record nothing else.
    ensures only { IfOk result (λ x. (version : ℕ) (files : List FileGraph) → ArePriors version files bytes.now → (version ≡ x.0.version) × (files ≡ x.1.items)) }
    // Priors are read, unless memory runs out.
    ensures all { (version : ℕ) (files : List FileGraph) → ArePriors version files bytes.now → IfErr result (λ e. e ≡ faults.NoMemory) }
    // Which fault it is, and that there is none where the bytes are read.
    ensures fault { IfErr result (λ e. e ≢ faults.NoMemory → bytes_judged false bytes.now ≡ Err e) }
    ensures memory { IfErr result (λ e. e ≢ faults.Bits bits.NoMemory) }
{
    match read_all(alloc, bytes) {
        Ok((header, files)) => match recorded(alloc, header.version, files) {
            Ok(files) => Ok((header, files)),
            Err(_) => Err(DepsFault::NoMemory),
        },
        Err(fault) => Err(fault),
    }
}

/// The one spelling of the priors of a graph, with version 3. The prints are written as they are given, so
/// they must be digests already.
///
/// The paths strictly ascend and are filled, the keys have their shape, and the nodes and their uses
/// are in order.
pub fn encode(alloc: Global, files: &[FileGraph]) -> Result<Text, NoMemory>
    requires files { AreWritable files.now }
    ensures written { IfOk result (λ text. IsWritten 3 files.now text) }
    // What is written records these files, and no others: two graphs have two spellings.
    ensures read_back { IfOk result (λ text. ArePriors 3 files.now text) }
    ensures only { IfOk result (λ text. (version : ℕ) (others : List FileGraph) → ArePriors version others text → (version ≡ 3) × (others ≡ files.now)) }
{
    let header = Header {
        version: PRIORS_VERSION,
    };
    match encode_all(alloc, header, files) {
        Ok(text) => Ok(text),
        Err(_) => Err(NoMemory),
    }
}

/// Bytes record one version and one graph at most.
pub fn priors_record_one_graph()
    ensures { (bytes : List ℕ) (version other : ℕ) (files others : List FileGraph) → ArePriors version files bytes → ArePriors other others bytes → (version ≡ other) × (files ≡ others) }
{}
