//! The rules on declarations and names: their numbers, which code and definitions share.

/// Another declaration of the name stands before.
pub const REDECLARED_NAME: u8 = 1;

/// No declaration has the name, or, for an extent, none before it has.
pub const UNDECLARED_NAME: u8 = 2;

/// A scalar stands with indexes.
pub const INDEXED_SCALAR: u8 = 3;

/// An array stands with more or fewer indexes than it has extents.
pub const WRONG_INDEXES: u8 = 4;

/// A constant is written, by an assignment or as the variable of a `for`.
pub const ASSIGNED_CONSTANT: u8 = 5;

/// So is an input.
pub const ASSIGNED_INPUT: u8 = 6;

/// The upper end of a range lies below its lower end.
pub const EMPTY_RANGE: u8 = 7;

/// An extent is the literal 0, a constant or the lower end of an input below 0, or names anything else than these.
pub const BAD_EXTENT: u8 = 8;

/// A `for` runs over something else than a scalar `var`.
pub const BAD_LOOP_VARIABLE: u8 = 9;

/// A statement writes the variable of a `for` around it.
pub const ASSIGNED_LOOP_VARIABLE: u8 = 10;

/// A statement writes what an end of a `for` around it reads.
pub const ASSIGNED_LOOP_BOUND: u8 = 11;

/// An end of a `for` reads the variable of that `for`.
pub const LOOP_READS_VARIABLE: u8 = 12;
