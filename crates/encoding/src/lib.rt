// The numbers by which documents 01 and 02 write kinds, claims, relations and functions, each under its name. Rules are named in `steps`, tags of rows in
// `rows`, nodes in `classes`.
#![tactic(auto)]

// "A record is a u32 body length, a u16 kind, a body": so many bytes stand before the body.
pub const RECORD_HEAD: usize = 6;

// ---- kinds of records. A ticket's record may have any of 65,536 kinds, and the definitions of the format take its number: so a kind is a number, and no enum.

// "1 head"
pub const KIND_HEAD: usize = 1;

// "2 literal"
pub const KIND_LITERAL: usize = 2;

// "3 string constraint"
pub const KIND_STRING: usize = 3;

// "4 arithmetic constraint"
pub const KIND_ARITHMETIC: usize = 4;

// "5 claim"
pub const KIND_CLAIM: usize = 5;

// "6 step"
pub const KIND_STEP: usize = 6;

// "7 model"
pub const KIND_MODEL: usize = 7;

// "8 end"
pub const KIND_END: usize = 8;

// "one record of kind 9 for each string variable"
pub const KIND_VALUE: usize = 9;

// "one of kind 10 (q i32 values)"
pub const KIND_INTEGERS: usize = 10;

// "kind 11 after kind 4" (02, L3), an extended constraint
pub const KIND_EXTENDED: usize = 11;

// ---- claims

// "1 for no solution, 2 for strings"
pub const CLAIM_NO_SOLUTION: usize = 1;

pub const CLAIM_STRINGS: usize = 2;

// ---- relations

// "Relation 0 is variable a ≈ variable b, 1 is a ≉ b, 2 is variable a ≈ literal b"
pub const SAME: usize = 0;

pub const NOT_SAME: usize = 1;

pub const IS_LITERAL: usize = 2;

// "0 is ≥ 0, 1 is = 0, 2 is ≠ 0"
pub const GE: usize = 0;

pub const EQ: usize = 1;

pub const NE: usize = 2;

// ---- functions

// "function (0 len, 1 code)"
pub const LEN: usize = 0;

pub const CODE: usize = 1;

// "Functions: 0, string a is b in upper case ..; 1, string a is b in lower case; 2, integer a is b read in decimal ..; 3, string a is integer b in decimal ..;
// 4, string a is equal to or before string b" (02, L3)
pub const IS_UPPER: usize = 0;

pub const IS_LOWER: usize = 1;

pub const IS_VALUE: usize = 2;

pub const IS_DECIMAL: usize = 3;

pub const IN_ORDER: usize = 4;
