// The static library: every public call as a function that C can call, over numbers, `#[repr(C)]` structs and slices (a pointer, then a length). Each
// function's `ensures` is `Shown`: its struct stands for an answer of which the relation of the call that it wraps holds. A flag is read as C does.
// include/tyngyrlak.h is made of these files and of the structs of crate `field_structs`.
#![tactic(auto)]

pub mod angles;
pub mod boxes;
pub mod cells;
pub mod clumps;
pub mod counts;
pub mod desks;
pub mod floats;
pub mod forces;
pub mod frames;
pub mod motion;
pub mod pairs;
pub mod parts;
pub mod settlings;
pub mod sheets;
pub mod skins;
pub mod speeds;
pub mod strikes;
pub mod virials;
