// What the programs with lists of cases share: a list is text; its cases are compared, and each outcome is printed and counted.
// It is printed by `io::write_all` and not by a runtime's `print`: no list is handed a runtime so, of C a program reaches
// `write` alone, and a write that a signal interrupts is not tried again.
#![tactic(auto)]

mod agree;
mod buffer;
mod compare;
mod list;
mod tally;
mod text;

pub use agree::agrees;
pub use list::run;
pub use tally::Tally;
