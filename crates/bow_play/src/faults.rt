// Why a script was not played.
use bow_units::Geometry;

/// Why a script was not played.
#[derive(Clone, Copy, Debug, PartialEq, Eq)]
pub enum PlayFault {
    /// A call of the source failed.
    SourceFault,
    /// The source gave no script. This is the first line at fault, counted from 1, and 0 stands for the length.
    BadScript(u32),
    /// The disk states these sizes, which no device has.
    BadGeometry(Geometry),
    /// A call of the disk failed, as the sizes were asked or the device was opened.
    DiskFault,
    /// Block 0 begins with a magic: the disk has to be restored first.
    NeedsRestore,
    /// There was no memory.
    NoMemory,
}
