// The sizes of the buffers. Those of a document fit the program's own limits (`edit::OWN_LIMITS`) and no more; the texts of a line take half of it at most.
pub const MEMORY: usize = 171008;

pub const SCRATCH: usize = 36864;

pub const TEXTS: usize = 131072;

pub const INPUT: usize = 524288;

pub const OUT: usize = 65536;
