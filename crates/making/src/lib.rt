#![tactic(auto)]
// The nine moves, each made where it is allowed: the moves inside a box, and the two ends of an inter move.
pub mod ends;
pub mod expose;
pub mod inside;
