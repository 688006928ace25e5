// The nineteen roles, and the byte for none. Numbers and not an enum: C gets the bytes as they are, and `set_role`,
// `take_token` and their like promise of any byte that it is stored.
pub const LEFT_OVER: u8 = 0;

pub const ATTRIBUTE_MARK: u8 = 1;

pub const ATTRIBUTE_GROUP: u8 = 2;

pub const IDLE_MARK: u8 = 3;

pub const VISIBILITY: u8 = 4;

pub const SCOPE: u8 = 5;

pub const ITEM_WORD: u8 = 6;

pub const ITEM_NAME: u8 = 7;

pub const ANGLE: u8 = 8;

pub const PARAMETER_NAME: u8 = 9;

pub const SEPARATOR: u8 = 10;
// A bound, a default or a const's type.
pub const BOUND: u8 = 11;

pub const WHERE_WORD: u8 = 12;

pub const WHERE_RUN: u8 = 13;
// The delimiters of a body or of a variant's group, and `;`.
pub const DELIMITER: u8 = 14;

pub const VARIANT_NAME: u8 = 15;

pub const VALUE: u8 = 16;

pub const FIELD_NAME: u8 = 17;

pub const TYPE: u8 = 18;
// Past the rows, and everywhere after a refusal.
pub const NONE: u8 = 255;
