// The rules of the function blocks of a gate box, on plain numbers: BOOL is `bool`, INT `i16`,
// DINT `i32` and REAL `f32`. A rule takes its pins and old cells and gives its new cells.
#![tactic(auto)]

pub mod arithmetic;
pub mod conversion;
pub mod counter;
pub mod delay;
pub mod gates;
pub mod limiter;
pub mod theorems;
