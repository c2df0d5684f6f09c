// Where the fields that only messages have stand in the header (clause 10.1, Table 20): the first octet of each.
pub const V_SEQ: usize = 16;

pub const SEQ: usize = 20;

pub const M_SZ: usize = 30;

pub const M_ADD: usize = 32;

pub const M_RLT: usize = 37;
