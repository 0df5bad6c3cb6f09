// The tests of the UDP and TCP headers: one short, exact, one long, in every kind of room and at every entry.
// A UDP length of 8, and then of 12.
const UDP_IN_IPV4: &[u8] = b"n UDP, room by IPv4 total length, Ethernet
z 12
x 0800 4500001c 00000000 40110000
z 8
x 00350035 00080000
b 17 27
1 48 refused 1 udp 34 required 8 have 7 source ipv4
b 17 28
1 48 ethernet2 0 14/ipv4 14 20/udp 34 8/payload 42 0/stop 5
b 17 29
1 48 ethernet2 0 14/ipv4 14 20/udp 34 8/payload 42 0/stop 5
b 39 12
b 17 31
1 48 refused 1 udp-payload 34 required 12 have 11 source ipv4
b 17 32
1 48 ethernet2 0 14/ipv4 14 20/udp 34 8/payload 42 4/stop 5
b 17 33
1 48 ethernet2 0 14/ipv4 14 20/udp 34 8/payload 42 4/stop 5
n UDP, room by IPv4 total length, IPv4 entry
x 4500001c 00000000 40110000
z 8
x 00350035 00080000
b 3 27
2 34 refused 1 udp 20 required 8 have 7 source ipv4
b 3 28
2 34 ipv4 0 20/udp 20 8/payload 28 0/stop 5
b 3 29
2 34 ipv4 0 20/udp 20 8/payload 28 0/stop 5
b 25 12
b 3 31
2 34 refused 1 udp-payload 20 required 12 have 11 source ipv4
b 3 32
2 34 ipv4 0 20/udp 20 8/payload 28 4/stop 5
b 3 33
2 34 ipv4 0 20/udp 20 8/payload 28 4/stop 5";

// The same.
const UDP_IN_IPV6: &[u8] = b"n UDP, room by IPv6 payload length, Ethernet
z 12
x 86dd 60000000 00081140
z 32
x 00350035 00080000
b 19 7
1 68 refused 1 udp 54 required 8 have 7 source ipv6
b 19 8
1 68 ethernet2 0 14/ipv6 14 40/udp 54 8/payload 62 0/stop 5
b 19 9
1 68 ethernet2 0 14/ipv6 14 40/udp 54 8/payload 62 0/stop 5
b 59 12
b 19 11
1 68 refused 1 udp-payload 54 required 12 have 11 source ipv6
b 19 12
1 68 ethernet2 0 14/ipv6 14 40/udp 54 8/payload 62 4/stop 5
b 19 13
1 68 ethernet2 0 14/ipv6 14 40/udp 54 8/payload 62 4/stop 5
n UDP, room by IPv6 payload length, IPv6 entry
x 60000000 00081140
z 32
x 00350035 00080000
b 5 7
3 54 refused 1 udp 40 required 8 have 7 source ipv6
b 5 8
3 54 ipv6 0 40/udp 40 8/payload 48 0/stop 5
b 5 9
3 54 ipv6 0 40/udp 40 8/payload 48 0/stop 5
b 45 12
b 5 11
3 54 refused 1 udp-payload 40 required 12 have 11 source ipv6
b 5 12
3 54 ipv6 0 40/udp 40 8/payload 48 4/stop 5
b 5 13
3 54 ipv6 0 40/udp 40 8/payload 48 4/stop 5";

// The same.
const UDP_TO_THE_END: &[u8] = b"n UDP, room by the slice, Ethernet
z 12
x 86dd 60000000 00001140
z 32
x 00350035 00080000
1 61 refused 1 udp 54 required 8 have 7 source slice
1 62 ethernet2 0 14/ipv6 14 40/udp 54 8/payload 62 0/stop 5
1 63 ethernet2 0 14/ipv6 14 40/udp 54 8/payload 62 0/stop 5
b 59 12
1 65 refused 1 udp-payload 54 required 12 have 11 source slice
1 66 ethernet2 0 14/ipv6 14 40/udp 54 8/payload 62 4/stop 5
1 67 ethernet2 0 14/ipv6 14 40/udp 54 8/payload 62 4/stop 5
n UDP, room by the slice, IPv6 entry
x 60000000 00001140
z 32
x 00350035 00080000
3 47 refused 1 udp 40 required 8 have 7 source slice
3 48 ipv6 0 40/udp 40 8/payload 48 0/stop 5
3 49 ipv6 0 40/udp 40 8/payload 48 0/stop 5
b 45 12
3 51 refused 1 udp-payload 40 required 12 have 11 source slice
3 52 ipv6 0 40/udp 40 8/payload 48 4/stop 5
3 53 ipv6 0 40/udp 40 8/payload 48 4/stop 5";

const UDP_LENGTHS: &[u8] = b"n UDP length 7, 8 and 9
x 4500001d 00000000 40110000
z 8
x 00350035 00080000
b 25 7
2 29 refused 1 udp 20 required 8 have 7 source udp
b 25 8
2 29 ipv4 0 20/udp 20 8/payload 28 0/stop 5
b 25 9
2 29 ipv4 0 20/udp 20 8/payload 28 1/stop 5
n UDP length 0, 1 and 2
z 12
x 0800 4500001e 00000000 40110000
z 8
x 00350035 00010000
b 39 0
1 44 ethernet2 0 14/ipv4 14 20/udp 34 8/payload 42 2/stop 5
b 39 1
1 44 refused 1 udp 34 required 8 have 1 source udp
b 39 2
1 44 refused 1 udp 34 required 8 have 2 source udp
n UDP length 0, room by the slice
x 60000000 00001140
z 32
x 00350035 00000000
3 47 refused 1 udp 40 required 8 have 7 source slice
3 48 ipv6 0 40/udp 40 8/payload 48 0/stop 5
3 49 ipv6 0 40/udp 40 8/payload 48 1/stop 5
n UDP behind AUTH
x 45000028 00000000 40330000
z 8
x 1101
z 10
x 00350035 00080000
2 39 refused 1 ipv4-packet 0 required 40 have 39 source slice
2 40 ipv4 0 20/auth 20 12/udp 32 8/payload 40 0/stop 5
2 41 ipv4 0 20/auth 20 12/udp 32 8/payload 40 0/stop 5
n UDP behind hop-by-hop
x 60000000 00000040
z 32
x 1100
z 6
x 00350035 00080000
3 55 refused 1 udp 48 required 8 have 7 source slice
3 56 ipv6 0 40/hop-by-hop 40 8/udp 48 8/payload 56 0/stop 5
3 57 ipv6 0 40/hop-by-hop 40 8/udp 48 8/payload 56 0/stop 5";

// A data offset of 5, and then of 6.
const TCP_IN_IPV4: &[u8] = b"n TCP, room by IPv4 total length, Ethernet
z 12
x 0800 45000028 00000000 40060000
z 8
x 00500050 00000000 00000000 50020000 00000000
b 17 39
1 60 refused 1 tcp 34 required 20 have 19 source ipv4
b 17 40
1 60 ethernet2 0 14/ipv4 14 20/tcp 34 20/payload 54 0/stop 5
b 17 41
1 60 ethernet2 0 14/ipv4 14 20/tcp 34 20/payload 54 1/stop 5
b 46 96
b 17 43
1 60 refused 1 tcp 34 required 24 have 23 source ipv4
b 17 44
1 60 ethernet2 0 14/ipv4 14 20/tcp 34 24/payload 58 0/stop 5
b 17 45
1 60 ethernet2 0 14/ipv4 14 20/tcp 34 24/payload 58 1/stop 5
n TCP, room by IPv4 total length, IPv4 entry
x 45000028 00000000 40060000
z 8
x 00500050 00000000 00000000 50020000 00000000
b 3 39
2 46 refused 1 tcp 20 required 20 have 19 source ipv4
b 3 40
2 46 ipv4 0 20/tcp 20 20/payload 40 0/stop 5
b 3 41
2 46 ipv4 0 20/tcp 20 20/payload 40 1/stop 5
b 32 96
b 3 43
2 46 refused 1 tcp 20 required 24 have 23 source ipv4
b 3 44
2 46 ipv4 0 20/tcp 20 24/payload 44 0/stop 5
b 3 45
2 46 ipv4 0 20/tcp 20 24/payload 44 1/stop 5";

// The same.
const TCP_IN_IPV6: &[u8] = b"n TCP, room by IPv6 payload length, Ethernet
z 12
x 86dd 60000000 00140640
z 32
x 00500050 00000000 00000000 50020000 00000000
b 19 19
1 80 refused 1 tcp 54 required 20 have 19 source ipv6
b 19 20
1 80 ethernet2 0 14/ipv6 14 40/tcp 54 20/payload 74 0/stop 5
b 19 21
1 80 ethernet2 0 14/ipv6 14 40/tcp 54 20/payload 74 1/stop 5
b 66 96
b 19 23
1 80 refused 1 tcp 54 required 24 have 23 source ipv6
b 19 24
1 80 ethernet2 0 14/ipv6 14 40/tcp 54 24/payload 78 0/stop 5
b 19 25
1 80 ethernet2 0 14/ipv6 14 40/tcp 54 24/payload 78 1/stop 5
n TCP, room by IPv6 payload length, IPv6 entry
x 60000000 00140640
z 32
x 00500050 00000000 00000000 50020000 00000000
b 5 19
3 66 refused 1 tcp 40 required 20 have 19 source ipv6
b 5 20
3 66 ipv6 0 40/tcp 40 20/payload 60 0/stop 5
b 5 21
3 66 ipv6 0 40/tcp 40 20/payload 60 1/stop 5
b 52 96
b 5 23
3 66 refused 1 tcp 40 required 24 have 23 source ipv6
b 5 24
3 66 ipv6 0 40/tcp 40 24/payload 64 0/stop 5
b 5 25
3 66 ipv6 0 40/tcp 40 24/payload 64 1/stop 5";

// The same.
const TCP_TO_THE_END: &[u8] = b"n TCP, room by the slice, Ethernet
z 12
x 86dd 60000000 00000640
z 32
x 00500050 00000000 00000000 50020000 00000000
1 73 refused 1 tcp 54 required 20 have 19 source slice
1 74 ethernet2 0 14/ipv6 14 40/tcp 54 20/payload 74 0/stop 5
1 75 ethernet2 0 14/ipv6 14 40/tcp 54 20/payload 74 1/stop 5
b 66 96
1 77 refused 1 tcp 54 required 24 have 23 source slice
1 78 ethernet2 0 14/ipv6 14 40/tcp 54 24/payload 78 0/stop 5
1 79 ethernet2 0 14/ipv6 14 40/tcp 54 24/payload 78 1/stop 5
n TCP, room by the slice, IPv6 entry
x 60000000 00000640
z 32
x 00500050 00000000 00000000 50020000 00000000
3 59 refused 1 tcp 40 required 20 have 19 source slice
3 60 ipv6 0 40/tcp 40 20/payload 60 0/stop 5
3 61 ipv6 0 40/tcp 40 20/payload 60 1/stop 5
b 52 96
3 63 refused 1 tcp 40 required 24 have 23 source slice
3 64 ipv6 0 40/tcp 40 24/payload 64 0/stop 5
3 65 ipv6 0 40/tcp 40 24/payload 64 1/stop 5";

const TCP_OFFSETS: &[u8] = b"n TCP data offset 15
x 60000000 00000640
z 32
x 00500050 00000000 00000000 f0020000 00000000
3 99 refused 1 tcp 40 required 60 have 59 source slice
3 100 ipv6 0 40/tcp 40 60/payload 100 0/stop 5
3 101 ipv6 0 40/tcp 40 60/payload 100 1/stop 5
n TCP data offset 4, 5, and 5 with a bit beside it
x 4500002c 00000000 40060000
z 8
x 00500050 00000000 00000000 50020000 00000000
b 32 79
2 44 refused 7 tcp 20 4
b 32 80
2 44 ipv4 0 20/tcp 20 20/payload 40 4/stop 5
b 32 81
2 44 ipv4 0 20/tcp 20 20/payload 40 4/stop 5
n TCP behind AUTH
x 45000034 00000000 40330000
z 8
x 0601
z 10
x 00500050 00000000 00000000 50020000 00000000
2 51 refused 1 ipv4-packet 0 required 52 have 51 source slice
2 52 ipv4 0 20/auth 20 12/tcp 32 20/payload 52 0/stop 5
2 53 ipv4 0 20/auth 20 12/tcp 32 20/payload 52 0/stop 5
n TCP behind destination
x 60000000 00003c40
z 32
x 0600
z 6
x 00500050 00000000 00000000 50020000 00000000
3 67 refused 1 tcp 48 required 20 have 19 source slice
3 68 ipv6 0 40/destination 40 8/tcp 48 20/payload 68 0/stop 5
3 69 ipv6 0 40/destination 40 8/tcp 48 20/payload 68 1/stop 5";

pub const LISTS: &[&[u8]] = &[
    UDP_IN_IPV4,
    UDP_IN_IPV6,
    UDP_TO_THE_END,
    UDP_LENGTHS,
    TCP_IN_IPV4,
    TCP_IN_IPV6,
    TCP_TO_THE_END,
    TCP_OFFSETS,
];
