// The limits of document 01 for code: those of calculus/specs/Limits under the same names, and constants made from them.
#![tactic(auto)]

// "1 when the work area has under 6,400 numbers or the answer buffer under 4,268 bytes"
pub const WORK_NUMBERS: usize = 6400;

pub const ANSWER_BYTES: usize = 4268;

// "a ticket has at most 32,768 bytes"
pub const TICKET_BYTES: usize = 32768;

// Room for all lines that the program prints: under 12 bytes for each byte of an answer.
pub const REPORT_BYTES: usize = 65536;

// "u32 n (1 to 196,608)"
pub const ALPHABET_LIMIT: usize = 196608;

// "u16 p string variables, u16 q integer variables (each 0 to 16)"
pub const VARIABLE_LIMIT: usize = 16;

// "0 to 15 of them"
pub const LITERAL_LIMIT: usize = 15;

// Literal 0, the empty one, included.
pub const LITERAL_NUMBERS: usize = LITERAL_LIMIT + 1;

// A node for each variable and for each literal, the empty one included.
pub const NODE_COUNT: usize = 2 * VARIABLE_LIMIT;

// The first literal stands after the head, at position 14.
pub const LITERALS_FROM: usize = 14;

// "1 to 64 characters"; "14 when a length passes 64"
pub const LENGTH_LIMIT: usize = 64;

// So many characters, "u32 each".
pub const TEXT_BYTES: usize = 4 * LENGTH_LIMIT;

// "1 to 8 pairs (fact, i32 multiplier)"
pub const SUMMAND_LIMIT: usize = 8;

// One column for each integer variable, and two for each string variable.
pub const COLUMN_LIMIT: usize = 48;

// A row's numbers: its tag, the constant and a coefficient for each column.
pub const ROW_LENGTH: usize = COLUMN_LIMIT + 2;

// "Coefficients, constants and multipliers lie within ±1,000,000,000, ends included"
pub const NUMBER_LIMIT: usize = 1000000000;

pub const NUMBER_MAX: i64 = 1000000000;

pub const NUMBER_MIN: i64 = -1000000000;

// "an i32 for each column, within ±100,000,000"
pub const VALUE_LIMIT: usize = 100000000;

// "At most 128 facts stand on a branch"
pub const FACT_LIMIT: usize = 128;

// "at most 64 splits have children pending"
pub const PENDING_LIMIT: usize = 64;
