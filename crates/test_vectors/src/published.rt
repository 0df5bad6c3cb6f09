// Published headers: of RFC 791, and of the worked examples of the header checksum in sums.rt.
// RFC 791, appendix A: a datagram with 1 byte of data, one with 452, its two fragments, and one with 12 bytes of options. The appendix
// leaves the data open; where the protocol is 6, a TCP header of 20 bytes stands there.
const RFC_791: &[u8] = b"n RFC 791, example 1
x 45000015 006f0000 7b010000
2 21 ipv4 0 20/payload 20 1/stop 4
n RFC 791, example 2
x 450001d8 006f0000 7b060000
z 8
x 00500050 00000000 00000000 50020000 00000000
2 472 ipv4 0 20/tcp 20 20/payload 40 432/stop 5
n RFC 791, the fragments of example 2
x 45000114 006f2000 77060000
z 8
x 00500050 00000000 00000000 50020000 00000000
2 276 ipv4 0 20/payload 20 256/stop 3
b 3 216
b 2 0
b 6 0
b 7 32
2 216 ipv4 0 20/payload 20 196/stop 3
n RFC 791, example 3
x 48000240 006f0000 7b060000
z 8
x 88030088 04000001 89030000 00500050 00000000 00000000 50020000 00000000
2 576 ipv4 0 32/tcp 32 20/payload 52 524/stop 5";

// Packets of the total length that each header has, with a header of its protocol behind it.
const WORKED_EXAMPLES: &[u8] = b"n Wikipedia, the packet
x 4500 0073 0000 4000 4011 b861 c0a8 0001 c0a8 00c7 00350035 005f0000
2 115 ipv4 0 20/udp 20 8/payload 28 87/stop 5
n The Geek Stuff, the packet
x 4500 003c 1c46 4000 4006 b1e6 ac10 0a63 ac10 0a0c 00500050 00000000 00000000 a0020000 00000000
2 60 ipv4 0 20/tcp 20 40/payload 60 0/stop 5
n Forouzan, the packet
x 4500 001c 0001 0000 0411 8bb1 0a0c 0e05 0c06 0709 00350035 00080000
2 28 ipv4 0 20/udp 20 8/payload 28 0/stop 5";

pub const LISTS: &[&[u8]] = &[RFC_791, WORKED_EXAMPLES];
