//! What the data of an input come to.
ghost use Rattle.std.specs.Prelude.{◌≡◌, ◌<◌};
ghost use Rattle.window_load.specs.DataRead.{data_read};

use range_guess::cut;
use range_scan::Joined;
use reject_book::Reject;

/// What the data of an input come to: the parts of all their ranges, each in its true state, as one.
#[derive(Drop)]
pub struct DataRead {
    /// The lines of its rejects are counted from the data's start: the load knows nothing of what stands before.
    pub joined: Joined,
    /// The bytes of the data, and their ranges.
    pub length: u64,
    pub ranges: u64,
}

/// All data, or their first reject, where the reading stops at it: the ranges before its own have none.
#[derive(Drop)]
pub enum WindowRead {
    All(DataRead),
    Stopped(Reject),
}

impl DataRead {
    /// All ranges of so many bytes of data.
    pub fn of(joined: Joined, length: u64, range_size: u64) -> DataRead
        requires some { 0 < range_size }
        ensures { result ≡ data_read joined length range_size }
    {
        DataRead {
            joined,
            length,
            ranges: cut(length, range_size).count(),
        }
    }
}
