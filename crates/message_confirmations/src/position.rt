// Where the fields of a confirmation stand in a frame (clause 10.2, Table 28): the first octet of each, and of M_CTL in the header.
pub const M_CTL: usize = 24;

pub const A_NUM: usize = 65;

pub const R_STS: usize = 68;

pub const R_TCD: usize = 70;

pub const R_NA: usize = 75;

pub const R_VSEQ: usize = 76;

pub const R_SEQ: usize = 80;
