// What a crash at one moment may leave of a disk, as finite data.
use std::collections::LinkedList;

/// One moment of a disk. Contracts speak of it, and no value of it is made.
///
/// A crash at this moment leaves one of the moment's images: any bytes in the ranges that were written since the last
/// sync, any bytes or none past the least length since, up to the greatest, and elsewhere what was there at that sync.
pub struct Moment {
    /// What a read gives.
    pub seen: LinkedList<u8>,
    /// What a read gave at the last sync that succeeded.
    pub kept: LinkedList<u8>,
    /// Where was written since: the place of the first byte, and how many bytes.
    pub ranges: LinkedList<(u64, u64)>,
    /// The least length since.
    pub least: u64,
    /// The greatest length since.
    pub most: u64,
}
