// The sizes, places and limits of a sheet, each named once. Its layout, as definitions and laws, is in specs/ and proofs/.
#![tactic(auto)]

// A block, and the bytes of it that are no check.
pub const BLOCK_BYTES: usize = 512;

pub const CONTENT_BYTES: usize = 510;

// What a check is taken modulo.
pub const MODULUS: usize = 65521;

// Block 0: where its numbers stand, and the zero bytes up to the first variable record.
pub const EDITION_OFFSET: usize = 0;

pub const NODE_COUNT_OFFSET: usize = 2;

pub const VARIABLE_COUNT_OFFSET: usize = 4;

pub const HEADER_GAP: usize = 5;

pub const HEADER_BYTES: usize = 8;

pub const HEADER_GAP_BYTES: usize = HEADER_BYTES - HEADER_GAP;

pub const MOST_VARIABLES: usize = 16;

// A variable's record: after min come max, the name's length, a zero byte and the name.
pub const VARIABLE_BYTES: usize = 24;

pub const MAX_OFFSET: usize = 2;

pub const NAME_SIZE_OFFSET: usize = 4;

pub const ZERO_OFFSET: usize = 5;

pub const NAME_START: usize = 6;

pub const MOST_NAME_BYTES: usize = 16;

// The bytes from a name's start to its record's end.
pub const NAME_FIELD: usize = VARIABLE_BYTES - NAME_START;

// A node's record: after the kind come a zero byte, a, b, c and the value; the rest is zero.
pub const NODE_BYTES: usize = 16;

pub const SPARE_OFFSET: usize = 1;

pub const A_OFFSET: usize = 2;

pub const B_OFFSET: usize = 4;

pub const C_OFFSET: usize = 6;

pub const VALUE_OFFSET: usize = 8;

pub const SPARE_START: usize = 10;

// The node records of a block.
pub const NODES_IN_BLOCK: usize = 31;

pub const MOST_NODES: usize = 1984;

// Block 0 and the most node blocks, and the bytes of the longest sheet.
pub const MOST_BLOCKS: usize = (MOST_NODES + (NODES_IN_BLOCK - 1)) / NODES_IN_BLOCK + 1;

pub const MOST_SHEET_BYTES: usize = BLOCK_BYTES * MOST_BLOCKS;
