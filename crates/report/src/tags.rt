// The tags of a report's records. (Numbers and no enum: each is only ever written.)

// The head.
pub(crate) const HEAD: u64 = 0x81;

// A task.
pub(crate) const TASK: u64 = 0x90;

// A path.
pub(crate) const PATH: u64 = 0xA0;
