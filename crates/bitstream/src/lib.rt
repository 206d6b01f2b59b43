//! The LLVM Bitstream Container Format (<https://llvm.org/docs/BitCodeFormat.html>): blocks, records,
//! abbreviations and blobs, written to bytes and read from them.
#![tactic(auto)]

mod abbrev;
mod block_info;
mod buffer;
pub mod codes;
mod cursor;
mod definition;
mod entries;
mod entry_reader;
mod field;
mod item;
mod laws;
mod lists;
mod no_memory;
mod operands;
mod packed;
mod reader;
mod slice;
mod text;
mod unfilled;
mod writer;

pub use item::{AbbrevOp, BitFault, Item};
pub use laws::{
    bytes_stand_for_one_list, fixed_is_read_back, items_are_of_the_furthest_front,
    no_front_goes_on_at_the_first_fault, vbr_is_read_back, vbr_is_read_where_it_stands,
    what_is_read_is_written, what_is_written_is_read,
};
pub use no_memory::NoMemory;
pub use operands::Operands;
pub use reader::BitReader;
pub use text::Text;
pub use writer::BitWriter;
