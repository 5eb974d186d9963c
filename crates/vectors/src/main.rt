// Outside vectors for the characters, the productions, names and texts, each compared with what it must be. Every group of them writes a line.
#![tactic(auto)]

mod cases; // cases.rt: cases by their number
mod characters; // characters.rt: UTF-8, the productions, names and texts
mod ends; // ends.rt: the ends of the productions' ranges
mod report; // report.rt: what is written

fn main() {
    characters::run();
}
