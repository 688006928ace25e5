// The refusals' numbers. 9, 10, 32 to 39 and 44 to 49 are none; 40 and 41 are of source texts alone, 42, 43, 50 and 51
// of the listing. README.md says where each one's place is, and which comes first.
// Numbers and not an enum: C gets them, and the public writers of a refusal's text take any number.

// More than 65,536 bytes.
pub const TOO_LONG: u8 = 1;
// The first line is neither `kind text` nor `kind joint text`.
pub const LINE_OF_NAMES: u8 = 2;
// A row's form (its mark too), its text's length or its LF is wrong.
pub const ROW_FORM: u8 = 3;
// A further row begins after 4,096.
pub const TOO_MANY_ROWS: u8 = 4;
// A close without its matching open.
pub const UNMATCHED_CLOSE: u8 = 5;
// A 33rd open group.
pub const TOO_DEEP: u8 = 6;
// The list ends in an open group.
pub const UNCLOSED_GROUP: u8 = 7;
// A lent buffer is too short.
pub const SHORT_BUFFER: u8 = 8;
// `struct` or `enum`, the item's name or a variant's name is missing.
pub const NO_WORD: u8 = 11;
// `#` with a group that is not `[`.
pub const ATTRIBUTE_DELIMITER: u8 = 12;
// `#` followed by anything else.
pub const NO_ATTRIBUTE: u8 = 13;
// In generics: not `'`, `>` or a name.
pub const NO_PARAMETER: u8 = 14;
// `>` with nothing open.
pub const UNMATCHED_ANGLE: u8 = 15;
// A struct's body is neither a group nor `;`.
pub const NO_STRUCT_BODY: u8 = 16;
// A struct's body is a `[` or `0` group.
pub const STRUCT_DELIMITER: u8 = 17;
// An enum's body is neither a group nor `;`.
pub const NO_ENUM_BODY: u8 = 18;
// A variant's group is `[` or `0`.
pub const VARIANT_DELIMITER: u8 = 19;
// After a variant without value: not `,`.
pub const NO_COMMA: u8 = 20;
// No literal after `=` or `-`.
pub const NO_LITERAL: u8 = 21;
// A field's name is missing.
pub const NO_FIELD_NAME: u8 = 22;
// `:` is missing.
pub const NO_COLON: u8 = 23;
// No name after `'`.
pub const NO_LIFETIME_NAME: u8 = 24;
// Another item word than `struct` or `enum`.
pub const OTHER_ITEM_WORD: u8 = 25;
// The literal after `-` is not digits alone, or worth too much.
pub const NEGATIVE_VALUE: u8 = 26;
// No name after `const`.
pub const NO_CONST_NAME: u8 = 27;
// Tagged: no `,` after a value.
pub const NO_ENTRY_COMMA: u8 = 28;
// Tagged: neither a key nor a key and a value.
pub const NO_ENTRY: u8 = 29;
// An added name is no name of at most 255 bytes, or has `r#`.
pub const ADDED_NAME: u8 = 30;
// Tagged: the list is not one group.
pub const NOT_ONE_GROUP: u8 = 31;
// Source: no token begins at the offset, or a bracket does not match.
pub const NO_TOKEN: u8 = 40;
// Source: the list passes a limit of lists.
pub const OVER_LIMIT: u8 = 41;
// Listing: a variant's value is no integer, or above the range of i64.
pub const NO_INTEGER: u8 = 42;
// Listing: a variant without value after the largest i64.
pub const NO_STEP: u8 = 43;
// Listing: the name of an earlier variant, `r#` aside.
pub const NAME_TWICE: u8 = 50;
// Listing: the number of an earlier variant.
pub const NUMBER_TWICE: u8 = 51;
