// The numbers of the kinds that the examples use.
// Kept as numbers: any library may number kinds as it likes, and a chart holds the byte.
pub const ADD: u8 = 4;

pub const ADD_D: u8 = 5;

pub const DIV_D: u8 = 6;

pub const LIM_D: u8 = 8;

pub const PDE: u8 = 9;

pub const CTR: u8 = 10;

pub const NSW_D: u8 = 12;

pub const R_D: u8 = 14;

pub const N2_R: u8 = 15;

pub const HYS: u8 = 129;
