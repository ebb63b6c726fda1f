// The phases of a read: what it wants, and the one in which it has ended.
pub(crate) const AT_ENTRY: u8 = 0;

// The first sector of a continuation, and a further one.
pub(crate) const AT_HEADER: u8 = 1;

pub(crate) const IN_CONTINUATION: u8 = 2;

pub(crate) const IN_EXTENT: u8 = 3;

pub(crate) const OVER: u8 = 4;
