// Runs the frames at every length test of the headers behind an IP header, each with the answer that must come, and prints as `test_vectors`
// does. It is a program of its own because one with all the lists would take too long to check.
#![tactic(auto)]

mod exts;
mod transport;

use test_cases::Tally;

fn main() {
    io::write_all(1, b"vectors behind IP");
    let mut tally = Tally::new();
    for lists in [exts::LISTS, transport::LISTS] {
        for list in lists {
            test_cases::run(&mut tally, list);
        }
    }
    tally.report();
}
