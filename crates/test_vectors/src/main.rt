// Runs the vectors: document 01's frames and sums, published ones, and the frames at every length test of the link and IP headers, each
// with the answer that must come. Prints a line for each group of cases, and at the end how many were compared and how many were the same.
#![tactic(auto)]

mod edges_ip;
mod edges_link;
mod frames;
mod published;
mod sums;
mod tired;

use test_cases::Tally;

fn main() {
    io::write_all(1, b"vectors");
    let mut tally = Tally::new();
    for lists in [
        frames::LISTS,
        tired::LISTS,
        sums::LISTS,
        published::LISTS,
        edges_link::LISTS,
        edges_ip::LISTS,
    ] {
        for list in lists {
            test_cases::run(&mut tally, list);
        }
    }
    tally.report();
}
