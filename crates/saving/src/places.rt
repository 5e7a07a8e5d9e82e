// Where the numbers and sections of a savepoint stand whose places are fixed.
pub const WRITTEN: usize = 4;

pub const EXPECTED: usize = 12;

pub const READ: usize = 20;

pub const ORDER: usize = 32;

pub const CAPACITY: usize = 40;

pub const ROOM: usize = 48;

pub const READER_ORDER: usize = 56;

pub const BUFFER: usize = 64;

pub const REQUESTS: usize = 72;
// The bytes of a count.
pub const COUNT: usize = 4;

// The bytes of a number.
pub const NUMBER: usize = 8;
