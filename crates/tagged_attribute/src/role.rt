// The roles of a tagged attribute's rows.
// Numbers and not an enum: they are the bytes of a buffer that C lends (`kusthrila_tagged`).
pub const TAG: u8 = 20;

pub const KEY: u8 = 21;

pub const VALUE: u8 = 22;
// Any other row.
pub const OTHER: u8 = 23;
