// The tests of the IPv4 and IPv6 headers: one short, exact, one long, at both ways to each; their versions, and the bits of IPv4 fragments.
const IPV4_BEHIND_ETHERNET: &[u8] = b"n IPv4 header, Ethernet
z 12
x 0800 45000014 00000000 403b0000
z 8
1 33 refused 1 ipv4 14 required 20 have 19 source slice
1 34 ethernet2 0 14/ipv4 14 20/payload 34 0/stop 4
1 35 ethernet2 0 14/ipv4 14 20/payload 34 0/stop 4
b 17 19
1 44 refused 1 ipv4-packet 14 required 20 have 19 source ipv4
b 17 20
1 44 ethernet2 0 14/ipv4 14 20/payload 34 0/stop 4
b 17 21
1 44 ethernet2 0 14/ipv4 14 20/payload 34 1/stop 4
n IPv4 header with IHL 6, Ethernet
z 12
x 0800 46000018 00000000 403b0000
z 12
1 37 refused 1 ipv4 14 required 24 have 23 source slice
1 38 ethernet2 0 14/ipv4 14 24/payload 38 0/stop 4
1 39 ethernet2 0 14/ipv4 14 24/payload 38 0/stop 4
b 17 23
1 44 refused 1 ipv4-packet 14 required 24 have 23 source ipv4
b 17 24
1 44 ethernet2 0 14/ipv4 14 24/payload 38 0/stop 4
b 17 25
1 44 ethernet2 0 14/ipv4 14 24/payload 38 1/stop 4
n IPv4 header with IHL 15, Ethernet
z 12
x 0800 4f00003c 00000000 403b0000
z 48
1 73 refused 1 ipv4 14 required 60 have 59 source slice
1 74 ethernet2 0 14/ipv4 14 60/payload 74 0/stop 4
1 75 ethernet2 0 14/ipv4 14 60/payload 74 0/stop 4
n IPv4 packet, Ethernet
z 12
x 0800 4500001c 00000000 403b0000
z 8
1 41 refused 1 ipv4-packet 14 required 28 have 27 source slice
1 42 ethernet2 0 14/ipv4 14 20/payload 34 8/stop 4
1 43 ethernet2 0 14/ipv4 14 20/payload 34 8/stop 4
n IHL 4, 5 and 6, Ethernet
z 12
x 0800 45000018 00000000 403b0000
z 8
b 14 68
1 38 refused 3 ipv4 14 4
b 14 69
1 38 ethernet2 0 14/ipv4 14 20/payload 34 4/stop 4
b 14 70
1 38 ethernet2 0 14/ipv4 14 24/payload 38 0/stop 4";

const IPV4_ENTRY: &[u8] = b"n IPv4 header, IPv4 entry
x 45000014 00000000 403b0000
z 8
2 19 refused 1 ipv4 0 required 20 have 19 source slice
2 20 ipv4 0 20/payload 20 0/stop 4
2 21 ipv4 0 20/payload 20 0/stop 4
b 3 19
2 30 refused 1 ipv4-packet 0 required 20 have 19 source ipv4
b 3 20
2 30 ipv4 0 20/payload 20 0/stop 4
b 3 21
2 30 ipv4 0 20/payload 20 1/stop 4
n IPv4 header with IHL 6, IPv4 entry
x 46000018 00000000 403b0000
z 12
2 23 refused 1 ipv4 0 required 24 have 23 source slice
2 24 ipv4 0 24/payload 24 0/stop 4
2 25 ipv4 0 24/payload 24 0/stop 4
b 3 23
2 30 refused 1 ipv4-packet 0 required 24 have 23 source ipv4
b 3 24
2 30 ipv4 0 24/payload 24 0/stop 4
b 3 25
2 30 ipv4 0 24/payload 24 1/stop 4
n IPv4 header with IHL 15, IPv4 entry
x 4f00003c 00000000 403b0000
z 48
2 59 refused 1 ipv4 0 required 60 have 59 source slice
2 60 ipv4 0 60/payload 60 0/stop 4
2 61 ipv4 0 60/payload 60 0/stop 4
n IPv4 packet, IPv4 entry
x 4500001c 00000000 403b0000
z 8
2 27 refused 1 ipv4-packet 0 required 28 have 27 source slice
2 28 ipv4 0 20/payload 20 8/stop 4
2 29 ipv4 0 20/payload 20 8/stop 4
n IHL 4, 5 and 6, IPv4 entry
x 45000018 00000000 403b0000
z 8
b 0 68
2 24 refused 3 ipv4 0 4
b 0 69
2 24 ipv4 0 20/payload 20 4/stop 4
b 0 70
2 24 ipv4 0 24/payload 24 0/stop 4";

const IPV6_BEHIND_ETHERNET: &[u8] = b"n IPv6 header, Ethernet
z 12
x 86dd 60000000 00003b40
z 32
1 53 refused 1 ipv6 14 required 40 have 39 source slice
1 54 ethernet2 0 14/ipv6 14 40/payload 54 0/stop 4
1 55 ethernet2 0 14/ipv6 14 40/payload 54 1/stop 4
n IPv6 packet, Ethernet
z 12
x 86dd 60000000 00083b40
z 32
1 53 refused 1 ipv6 14 required 40 have 39 source slice
1 54 refused 1 ipv6-packet 14 required 48 have 40 source slice
1 55 refused 1 ipv6-packet 14 required 48 have 41 source slice
1 61 refused 1 ipv6-packet 14 required 48 have 47 source slice
1 62 ethernet2 0 14/ipv6 14 40/payload 54 8/stop 4
1 63 ethernet2 0 14/ipv6 14 40/payload 54 8/stop 4
n IPv6 payload length 0, 1 and 2, Ethernet
z 12
x 86dd 60000000 00003b40
z 32
b 19 0
1 55 ethernet2 0 14/ipv6 14 40/payload 54 1/stop 4
b 19 1
1 55 ethernet2 0 14/ipv6 14 40/payload 54 1/stop 4
b 19 2
1 55 refused 1 ipv6-packet 14 required 42 have 41 source slice";

const IPV6_ENTRY: &[u8] = b"n IPv6 header, IPv6 entry
x 60000000 00003b40
z 32
3 39 refused 1 ipv6 0 required 40 have 39 source slice
3 40 ipv6 0 40/payload 40 0/stop 4
3 41 ipv6 0 40/payload 40 1/stop 4
n IPv6 packet, IPv6 entry
x 60000000 00083b40
z 32
3 39 refused 1 ipv6 0 required 40 have 39 source slice
3 40 refused 1 ipv6-packet 0 required 48 have 40 source slice
3 41 refused 1 ipv6-packet 0 required 48 have 41 source slice
3 47 refused 1 ipv6-packet 0 required 48 have 47 source slice
3 48 ipv6 0 40/payload 40 8/stop 4
3 49 ipv6 0 40/payload 40 8/stop 4
n IPv6 payload length 0, 1 and 2, IPv6 entry
x 60000000 00003b40
z 32
b 5 0
3 41 ipv6 0 40/payload 40 1/stop 4
b 5 1
3 41 ipv6 0 40/payload 40 1/stop 4
b 5 2
3 41 refused 1 ipv6-packet 0 required 42 have 41 source slice";

const LONGEST_PACKETS: &[u8] = b"n the longest IPv4 packet
x 4500ffff 00000000 403b0000
z 8
2 65534 refused 1 ipv4-packet 0 required 65535 have 65534 source slice
2 65535 ipv4 0 20/payload 20 65515/stop 4
2 65536 ipv4 0 20/payload 20 65515/stop 4
n the longest IPv6 packet
x 60000000 ffff3b40
z 32
3 65574 refused 1 ipv6-packet 0 required 65575 have 65574 source slice
3 65575 ipv6 0 40/payload 40 65535/stop 4
3 65576 ipv6 0 40/payload 40 65535/stop 4";

const FIRST_BYTES: &[u8] = b"n IPv4 versions
x 45000014 00000000 403b0000
z 8
b 0 53
2 20 refused 2 ipv4 0 3
b 0 85
2 20 refused 2 ipv4 0 5
b 0 101
2 20 refused 2 ipv4 0 6
b 0 5
2 19 refused 1 ipv4 0 required 20 have 19 source slice
n IPv6 versions
x 60000000 00003b40
z 32
b 0 80
3 40 refused 4 ipv6 0 5
b 0 112
3 40 refused 4 ipv6 0 7
b 0 69
3 40 refused 4 ipv6 0 4
b 0 0
3 39 refused 1 ipv6 0 required 40 have 39 source slice
n IPv4 fragment bits
x 4500001c 00000000 40110000
z 8
x 00350035 00080000
b 6 32
2 28 ipv4 0 20/payload 20 8/stop 3
b 6 31
2 28 ipv4 0 20/payload 20 8/stop 3
b 6 192
2 28 ipv4 0 20/udp 20 8/payload 28 0/stop 5
b 7 1
2 28 ipv4 0 20/payload 20 8/stop 3";

pub const LISTS: &[&[u8]] = &[
    IPV4_BEHIND_ETHERNET,
    IPV4_ENTRY,
    IPV6_BEHIND_ETHERNET,
    IPV6_ENTRY,
    LONGEST_PACKETS,
    FIRST_BYTES,
];
