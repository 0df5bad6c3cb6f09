// Runs TCP options of real handshakes, and of every row in which etherparse answers otherwise (docs/DIFFERENCES.md, C1 to C8), through
// crate tcp_options, and prints the answer at each place up to the first that ends the list and at the next. stdout has what must come.
#![tactic(auto)]

use tcp_options::{OptionRow, TcpOption};

// Printed by crate `io`. `println!` was tried: the check takes 60 s of processor time and not 21 s, and a write that a signal interrupts would be tried again.
fn print_number(n: usize) {
    io::print_decimal(1, n as u64);
}

fn print_option(found: TcpOption) {
    io::write_all(1, b"kind ");
    print_number(usize::from(found.kind.number()));
    io::write_all(1, b" at ");
    print_number(found.at);
    io::write_all(1, b" size ");
    print_number(found.len);
}

fn print_row(row: OptionRow) {
    io::write_all(1, b"refused ");
    print_number(row.number);
    io::write_all(1, b" at ");
    print_number(row.offset);
}

// Prints the answer at place k; says whether an option is listed there.
fn print_place(s: &[u8], k: usize) -> bool {
    io::write_all(1, b"  ");
    print_number(k);
    io::write_all(1, b": ");
    let answer = tcp_options::option(s, k);
    match answer {
        Ok(Some(found)) => print_option(found),
        Ok(None) => {
            io::write_all(1, b"no more");
        }
        Err(refusal) => print_row(OptionRow::from(refusal)),
    }
    io::write_all(1, b"\n");
    matches!(answer, Ok(Some(_)))
}

// Every option has a byte at least, so place s.len() is behind them all.
fn show(name: &[u8], s: &[u8]) {
    io::write_all(1, name);
    io::write_all(1, b"\n");
    let mut next: usize = 0;
    for k in 0..s.len() {
        next = k + 1;
        if !print_place(s, k) {
            break;
        }
    }
    print_place(s, next);
}

fn handshakes() {
    show(
        b"a SYN of Linux: MSS, SACK permitted, timestamps, NOP, window scale",
        &[
            0x02, 0x04, 0x05, 0xb4, 0x04, 0x02, 0x08, 0x0a, 0x00, 0x12, 0xd6, 0x87, 0x00, 0x00,
            0x00, 0x00, 0x01, 0x03, 0x03, 0x07,
        ],
    );
    show(
        b"a SYN of Windows: MSS, NOP, window scale, NOP, NOP, SACK permitted",
        &[
            0x02, 0x04, 0x05, 0xb4, 0x01, 0x03, 0x03, 0x08, 0x01, 0x01, 0x04, 0x02,
        ],
    );
    show(
        b"a SYN of BSD: MSS, NOP, window scale, NOP, NOP, timestamps, SACK permitted, end",
        &[
            0x02, 0x04, 0x05, 0xb4, 0x01, 0x03, 0x03, 0x06, 0x01, 0x01, 0x08, 0x0a, 0x3b, 0x9a,
            0xca, 0x00, 0x00, 0x00, 0x00, 0x00, 0x04, 0x02, 0x00, 0x00,
        ],
    );
    show(
        b"a segment with timestamps: NOP, NOP, timestamps",
        &[
            0x01, 0x01, 0x08, 0x0a, 0x00, 0x12, 0xd6, 0x87, 0x00, 0x12, 0xd6, 0x80,
        ],
    );
    show(
        b"an acknowledgement with one SACK block",
        &[
            0x01, 0x01, 0x05, 0x0a, 0x00, 0x00, 0x13, 0x88, 0x00, 0x00, 0x17, 0x70,
        ],
    );
    show(
        b"an acknowledgement with four SACK blocks",
        &[
            0x05, 0x22, 0x00, 0x00, 0x13, 0x88, 0x00, 0x00, 0x17, 0x70, 0x00, 0x00, 0x13, 0x88,
            0x00, 0x00, 0x17, 0x70, 0x00, 0x00, 0x13, 0x88, 0x00, 0x00, 0x17, 0x70, 0x00, 0x00,
            0x13, 0x88, 0x00, 0x00, 0x17, 0x70,
        ],
    );
}

fn ends() {
    show(b"nothing", &[0u8; 0]);
    show(b"end of list, and bytes behind it", &[0x00, 0x02]);
    show(
        b"SACK of size 12",
        &[
            0x05, 0x0c, 0x00, 0x00, 0x00, 0x00, 0x00, 0x00, 0x00, 0x00, 0x00, 0x00,
        ],
    );
    show(b"a NOP in front of a refused option", &[0x01, 0x02]);
}

fn differences() {
    show(
        b"C1 an unknown kind with a sound length",
        &[0xfd, 0x04, 0x00, 0x00],
    );
    show(b"C1 the smallest", &[0xfd, 0x02]);
    show(b"C2 an unknown kind without its length byte", &[0xfd]);
    show(b"C2 an unknown kind of length 1", &[0xfd, 0x01]);
    show(b"C3 MSS of size 3", &[0x02, 0x03, 0x05]);
    show(b"C3 MSS of size 2", &[0x02, 0x02]);
    show(b"C3 MSS of length 0 in two bytes", &[0x02, 0x00]);
    show(
        b"C4 MSS of length 6 in four bytes",
        &[0x02, 0x06, 0x00, 0x00],
    );
    show(b"C4 SACK permitted of length 0", &[0x04, 0x00]);
    show(b"C4 SACK permitted of length 3 in two bytes", &[0x04, 0x03]);
    show(b"C5 SACK of length 11 in two bytes", &[0x05, 0x0b]);
    show(b"C5 SACK of length 0", &[0x05, 0x00]);
    show(b"C6 a lone kind byte", &[0x08]);
    show(b"C7 a refusal, asked for again", &[0x02]);
    show(b"C8 MSS 1460", &[0x02, 0x04, 0x05, 0xb4]);
    show(
        b"in effect as the crate: MSS of length 4 in three bytes",
        &[0x02, 0x04, 0x05],
    );
}

fn main() {
    handshakes();
    ends();
    differences();
    io::write_all(1, b"26 slices\n");
}
