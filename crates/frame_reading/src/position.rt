// Where the fields stand in the header (clause 10.1, Table 20): the first octet of each.
pub const TFL: usize = 4;

pub const SNA: usize = 11;

pub const DNA: usize = 15;

pub const TCD: usize = 40;

pub const C_AD1: usize = 44;

pub const C_SZ1: usize = 46;

pub const C_AD2: usize = 48;

pub const C_SZ2: usize = 50;

pub const CBN: usize = 56;

pub const TBN: usize = 57;

pub const BSIZE: usize = 58;

pub const TW: usize = 61;
