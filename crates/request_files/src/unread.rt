// Why files were not read.
use command_words::FileWord;

/// Why one file was not read.
#[derive(Clone, Copy, Debug, PartialEq, Eq)]
pub enum ReadStop {
    /// A fetch failed.
    Fault,
    /// It is longer than its limit.
    TooLong,
    NoMemory,
}

/// Why the files of a request were not read: the first that was not, or want of memory.
#[derive(Clone, Copy, Debug, PartialEq, Eq)]
pub enum Unread {
    /// A fetch of the file failed.
    Fault(FileWord),
    /// The file is longer than its limit.
    TooLong(FileWord),
    NoMemory,
}
