// The frame of the editing calls: test 4 and the structure check, and, in specs/, what every editing call answers with.
#![tactic(auto)]

pub mod admission;
