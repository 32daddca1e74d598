// The numbers of document 01 by name: its times, "numbers that bound a state", the ranges of fields, and the lengths of the program.
use crate::Time;

// "The largest stands for "never""; "the last usable" is one less.
pub const NEVER: Time = 4294967295;

pub const LAST_USABLE: Time = NEVER - 1;

// "32 bits".
pub const LARGEST: u32 = 4294967295;

// "Processes 1 to 8"; for each "input entries 64, output entries 64, history 32"; "transit 128".
pub const PROCESSES: usize = 8;

pub const QUEUE: usize = 64;

pub const HISTORY: usize = 32;

pub const TRANSIT: usize = 128;

// Who sends a request, the last number of one, and the number after it; the last ordinal of a process.
pub const OUTSIDE: u32 = 8;

pub const LAST_REQUEST: u32 = 999999999;

pub const LAST_NEXT: u32 = LAST_REQUEST + 1;

pub const LAST_ORDINAL: u32 = 127;

pub const HIGHEST_KIND: u32 = 7;

pub const HIGHEST_MODE: u32 = 7;

// The most messages that an event reads.
pub const MOST_READ: u32 = 64;

// The input of the program has at most so many bytes, and the buffer that its advances are lent has so many.
pub const INPUT_LENGTH: usize = 65536;

pub const BUFFER_LENGTH: usize = 4096;
