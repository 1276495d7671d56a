// The tags of a plan's fields. (Numbers and no enum: each is only ever compared with a byte that may be any.)

// The head.
pub(crate) const HEAD: u64 = 0x01;

// A controller.
pub(crate) const CONTROLLER: u64 = 0x10;

// A task that is fed from outside.
pub(crate) const OUTSIDE: u64 = 0x20;

// A task that another one feeds.
pub(crate) const FED: u64 = 0x21;

// A path.
pub(crate) const PATH: u64 = 0x30;
