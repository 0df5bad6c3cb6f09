// Checksums: document 01's and published ones. A case has the answer and its no-zero form.
// Document 01, F10. RFC 1071, section 3: the sum ddf2, the swapped order f2dd, and the two groups f201 and f0eb, of which the second
// begins at an odd byte; the answers are the complements.
const RFC_1071: &[u8] = b"n F10
x 0001 f203 f4f5 f6f7
+
s 220d 220d
+
s ffff ffff
x ffff
+
s 0000 ffff
n RFC 1071
x 0001 f203 f4f5 f6f7
+
s 220d 220d
x 0100 03f2 f5f4 f7f6
+
s 0d22 0d22
x 0001 f2
+
s 0dfe 0dfe
x 03f4 f5f6 f7
+
s 0f14 0f14";

// RFC 1624, section 4: the other words of a header sum to cd7a, and a field changes from 5555 to 3285.
const RFC_1624: &[u8] = b"n RFC 1624
x cd7a
+
x 5555
+
s dd2f dd2f
x cd7a
+
x 3285
+
s 0000 ffff";

// IPv4 headers, each with a zero checksum and then with its own, over which the answer is 0: those of the English Wikipedia, "Internet
// checksum"; of The Geek Stuff, "How to Calculate IP Header Checksum (With an Example)"; and of B. Forouzan, "Data Communications and
// Networking", in the section on the IPv4 header checksum.
const HEADERS: &[u8] = b"n Wikipedia
x 4500 0073 0000 4000 4011 0000 c0a8 0001 c0a8 00c7
+
s b861 b861
x 4500 0073 0000 4000 4011 b861 c0a8 0001 c0a8 00c7
+
s 0000 ffff
n The Geek Stuff
x 4500 003c 1c46 4000 4006 0000 ac10 0a63 ac10 0a0c
+
s b1e6 b1e6
x 4500 003c 1c46 4000 4006 b1e6 ac10 0a63 ac10 0a0c
+
s 0000 ffff
n Forouzan
x 4500 001c 0001 0000 0411 0000 0a0c 0e05 0c06 0709
+
s 8bb1 8bb1
x 4500 001c 0001 0000 0411 8bb1 0a0c 0e05 0c06 0709
+
s 0000 ffff";

// Carries at the edges of the fold, and odd slices.
const CARRIES: &[u8] = b"n carries
x ffff ffff
+
s 0000 ffff
x ffff 0001
+
s fffe fffe
x fffe 0001
+
s 0000 ffff
x 8000 8000
+
s fffe fffe
x fffe
+
s 0001 0001
n odd slices
x ff
+
s 00ff 00ff
+
x ffff
+
s 0000 ffff
x 0102 03
+
x 04
+
s f7fd f7fd";

pub const LISTS: &[&[u8]] = &[RFC_1071, RFC_1624, HEADERS, CARRIES];
