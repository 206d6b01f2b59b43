use drv_outside::Text;

/// Why a module has no image. A symbol is any filled list of bytes without a blank.
#[derive(Clone, Debug, Drop, PartialEq, Eq)]
pub enum MergeEnd {
    /// This symbol is used and not defined, and is the least such.
    Missing { symbol: Text },
    /// This symbol is defined twice, and is the least such.
    Twice { symbol: Text },
    /// Memory was wanted and not there.
    NoMemory,
}
