//! File graphs in a bitstream.

ghost use Rattle.std.specs.Prelude.{◌≡◌, ◌≢◌, Some};
ghost use Rattle.bitstream.specs.Items.{items_in};
ghost use Rattle.bitstream.specs.declared.item.BitFault.TheVariants.{NoMemory};
ghost use Rattle.swiftdeps.specs.declared.fault.Stop.TheVariants.{Memory, Fault};
ghost use Rattle.swiftdeps.specs.declared.fault.DepsFault.TheVariants.{Bits};
ghost use Rattle.swiftdeps.specs.Judging.{Gives, seen_files};
ghost use Rattle.swiftdeps.specs.Streams.{stream_judged};

use crate::collected::Collected;
use crate::fault::{DepsFault, Stop};
use bitstream::{BitFault, BitReader, Item};
use dep_key::FileGraph;
use std::alloc::Global;

/// Why a bitstream's fault stops reading.
fn stop_of(fault: BitFault) -> Stop
    ensures memory { fault ≡ NoMemory → result ≡ Memory }
    ensures bits { fault ≢ NoMemory → result ≡ Fault (Bits fault) }
{
    match fault {
        BitFault::NoMemory => Stop::Memory,
        _ => Stop::Fault(DepsFault::Bits(fault)),
    }
}

/// The version and the files of a bitstream, of one file alone or of any number of them.
pub fn read(alloc: Global, is_single: bool, bytes: &[u8]) -> Result<(u64, Vec<FileGraph>), Stop>
    ensures read { Gives (seen_files result) (stream_judged is_single bytes.now) }
    ensures memory { (items_in bytes.now).1 ≢ Some NoMemory }
{
    let mut reader = BitReader::new(alloc, bytes);
    let mut collected = Collected::new(alloc)?;
    'each: loop {
        match reader.next() {
            Ok(Item::End) => return collected.end(reader.at()),
            Ok(item) => collected.take(is_single, reader.at(), &item)?,
            Err(fault) => return Err(stop_of(fault)),
        }
    }
}
