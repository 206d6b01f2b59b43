use drv_outside::MapFault;

/// Why a map wasn't read, or no names were assigned.
#[derive(Clone, Debug, Drop, PartialEq, Eq)]
pub enum MapEnd {
    /// The map is refused.
    Fault(MapFault),
    /// Memory was wanted and not there.
    NoMemory,
}
