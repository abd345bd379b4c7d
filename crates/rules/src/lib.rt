// The rules of both ends: how an end stands, as plain values, and in specs/ what each call answers and how the end stands
// after it. There is no logic here; the crates of the ends are proved to be these rules.
#![tactic(auto)]

pub mod answers;
pub mod cases;
pub mod faults;
pub mod receiver;
pub mod sender;
