// The tests of the extension headers: one short, exact, one long, in rooms that a length field ends and in rooms that the slice ends.
const HOP_BY_HOP: &[u8] = b"n hop-by-hop, room by payload length
z 12
x 86dd 60000000 00080040
z 32
x 3b00
z 6
b 19 7
1 72 refused 1 hop-by-hop 54 required 8 have 7 source ipv6
b 19 8
1 72 ethernet2 0 14/ipv6 14 40/hop-by-hop 54 8/payload 62 0/stop 4
b 19 9
1 72 ethernet2 0 14/ipv6 14 40/hop-by-hop 54 8/payload 62 1/stop 4
b 55 1
b 19 15
1 72 refused 1 hop-by-hop 54 required 16 have 15 source ipv6
b 19 16
1 72 ethernet2 0 14/ipv6 14 40/hop-by-hop 54 16/payload 70 0/stop 4
b 19 17
1 72 ethernet2 0 14/ipv6 14 40/hop-by-hop 54 16/payload 70 1/stop 4
n hop-by-hop, room by the slice
x 60000000 00000040
z 32
x 3b00
z 6
3 47 refused 1 hop-by-hop 40 required 8 have 7 source slice
3 48 ipv6 0 40/hop-by-hop 40 8/payload 48 0/stop 4
3 49 ipv6 0 40/hop-by-hop 40 8/payload 48 1/stop 4
b 41 1
3 55 refused 1 hop-by-hop 40 required 16 have 15 source slice
3 56 ipv6 0 40/hop-by-hop 40 16/payload 56 0/stop 4
3 57 ipv6 0 40/hop-by-hop 40 16/payload 56 1/stop 4";

const ROUTING: &[u8] = b"n routing, room by payload length
z 12
x 86dd 60000000 00082b40
z 32
x 3b00
z 6
b 19 7
1 72 refused 1 routing 54 required 8 have 7 source ipv6
b 19 8
1 72 ethernet2 0 14/ipv6 14 40/routing 54 8/payload 62 0/stop 4
b 19 9
1 72 ethernet2 0 14/ipv6 14 40/routing 54 8/payload 62 1/stop 4
b 55 1
b 19 15
1 72 refused 1 routing 54 required 16 have 15 source ipv6
b 19 16
1 72 ethernet2 0 14/ipv6 14 40/routing 54 16/payload 70 0/stop 4
b 19 17
1 72 ethernet2 0 14/ipv6 14 40/routing 54 16/payload 70 1/stop 4
n routing, room by the slice
x 60000000 00002b40
z 32
x 3b00
z 6
3 47 refused 1 routing 40 required 8 have 7 source slice
3 48 ipv6 0 40/routing 40 8/payload 48 0/stop 4
3 49 ipv6 0 40/routing 40 8/payload 48 1/stop 4
b 41 1
3 55 refused 1 routing 40 required 16 have 15 source slice
3 56 ipv6 0 40/routing 40 16/payload 56 0/stop 4
3 57 ipv6 0 40/routing 40 16/payload 56 1/stop 4";

const DESTINATION: &[u8] = b"n destination, room by payload length
z 12
x 86dd 60000000 00083c40
z 32
x 3b00
z 6
b 19 7
1 72 refused 1 destination 54 required 8 have 7 source ipv6
b 19 8
1 72 ethernet2 0 14/ipv6 14 40/destination 54 8/payload 62 0/stop 4
b 19 9
1 72 ethernet2 0 14/ipv6 14 40/destination 54 8/payload 62 1/stop 4
b 55 1
b 19 15
1 72 refused 1 destination 54 required 16 have 15 source ipv6
b 19 16
1 72 ethernet2 0 14/ipv6 14 40/destination 54 16/payload 70 0/stop 4
b 19 17
1 72 ethernet2 0 14/ipv6 14 40/destination 54 16/payload 70 1/stop 4
n destination, room by the slice
x 60000000 00003c40
z 32
x 3b00
z 6
3 47 refused 1 destination 40 required 8 have 7 source slice
3 48 ipv6 0 40/destination 40 8/payload 48 0/stop 4
3 49 ipv6 0 40/destination 40 8/payload 48 1/stop 4
b 41 1
3 55 refused 1 destination 40 required 16 have 15 source slice
3 56 ipv6 0 40/destination 40 16/payload 56 0/stop 4
3 57 ipv6 0 40/destination 40 16/payload 56 1/stop 4";

const CHAINS: &[u8] = b"n a length byte of 255
x 60000000 00003c40
z 32
x 3b00
z 6
b 41 255
3 2087 refused 1 destination 40 required 2048 have 2047 source slice
3 2088 ipv6 0 40/destination 40 2048/payload 2088 0/stop 4
3 2089 ipv6 0 40/destination 40 2048/payload 2088 1/stop 4
n hop-by-hop named by destination
x 60000000 00003c40
z 32
x 0000
z 6
3 47 refused 1 destination 40 required 8 have 7 source slice
3 48 refused 5 hop-by-hop 48
3 49 refused 5 hop-by-hop 48
n fragment behind routing
x 60000000 00002b40
z 32
x 2c00
z 6
x 3b000000
z 4
3 55 refused 1 fragment 48 required 8 have 7 source slice
3 56 ipv6 0 40/routing 40 8/fragment 48 8/payload 56 0/stop 4
3 57 ipv6 0 40/routing 40 8/fragment 48 8/payload 56 1/stop 4";

const FRAGMENT: &[u8] = b"n fragment, room by payload length
z 12
x 86dd 60000000 00082c40
z 32
x 3b000000
z 4
b 19 7
1 64 refused 1 fragment 54 required 8 have 7 source ipv6
b 19 8
1 64 ethernet2 0 14/ipv6 14 40/fragment 54 8/payload 62 0/stop 4
b 19 9
1 64 ethernet2 0 14/ipv6 14 40/fragment 54 8/payload 62 1/stop 4
n fragment, room by the slice
x 60000000 00002c40
z 32
x 3b000000
z 4
3 47 refused 1 fragment 40 required 8 have 7 source slice
3 48 ipv6 0 40/fragment 40 8/payload 48 0/stop 4
3 49 ipv6 0 40/fragment 40 8/payload 48 1/stop 4
n fragment, M and offset
x 60000000 00002c40
z 32
x 11000000
z 4
x 00350035 00080000
b 43 0
3 56 ipv6 0 40/fragment 40 8/udp 48 8/payload 56 0/stop 5
b 43 1
3 56 ipv6 0 40/fragment 40 8/payload 48 8/stop 3
b 43 2
3 56 ipv6 0 40/fragment 40 8/udp 48 8/payload 56 0/stop 5
b 43 7
3 56 ipv6 0 40/fragment 40 8/payload 48 8/stop 3
b 43 8
3 56 ipv6 0 40/fragment 40 8/payload 48 8/stop 3
b 43 9
3 56 ipv6 0 40/fragment 40 8/payload 48 8/stop 3";

const AUTH: &[u8] = b"n AUTH, room by payload length
z 12
x 86dd 60000000 000c3340
z 32
x 3b01
z 10
b 19 11
1 72 refused 1 auth 54 required 12 have 11 source ipv6
b 19 12
1 72 ethernet2 0 14/ipv6 14 40/auth 54 12/payload 66 0/stop 4
b 19 13
1 72 ethernet2 0 14/ipv6 14 40/auth 54 12/payload 66 1/stop 4
b 55 2
b 19 15
1 72 refused 1 auth 54 required 16 have 15 source ipv6
b 19 16
1 72 ethernet2 0 14/ipv6 14 40/auth 54 16/payload 70 0/stop 4
b 19 17
1 72 ethernet2 0 14/ipv6 14 40/auth 54 16/payload 70 1/stop 4
n AUTH, room by the slice
x 60000000 00003340
z 32
x 3b01
z 10
3 51 refused 1 auth 40 required 12 have 11 source slice
3 52 ipv6 0 40/auth 40 12/payload 52 0/stop 4
3 53 ipv6 0 40/auth 40 12/payload 52 1/stop 4
b 41 2
3 55 refused 1 auth 40 required 16 have 15 source slice
3 56 ipv6 0 40/auth 40 16/payload 56 0/stop 4
3 57 ipv6 0 40/auth 40 16/payload 56 1/stop 4
n AUTH, length byte 0, 1 and 2, and 255
x 60000000 00003340
z 32
x 3b01
z 10
b 41 0
3 52 refused 6 auth 40
b 41 1
3 52 ipv6 0 40/auth 40 12/payload 52 0/stop 4
b 41 2
3 52 refused 1 auth 40 required 16 have 12 source slice
b 41 255
3 1067 refused 1 auth 40 required 1028 have 1027 source slice
3 1068 ipv6 0 40/auth 40 1028/payload 1068 0/stop 4
3 1069 ipv6 0 40/auth 40 1028/payload 1068 1/stop 4
n AUTH behind AUTH
x 60000000 00003340
z 32
x 3301
z 10
x 3b01
z 10
3 63 refused 1 auth 52 required 12 have 11 source slice
3 64 ipv6 0 40/auth 40 12/auth 52 12/payload 64 0/stop 4
3 65 ipv6 0 40/auth 40 12/auth 52 12/payload 64 1/stop 4";

const AUTH_IN_IPV4: &[u8] = b"n AUTH in IPv4, Ethernet
z 12
x 0800 45000020 00000000 40330000
z 8
x 3b01
z 10
b 17 31
1 54 refused 1 auth 34 required 12 have 11 source ipv4
b 17 32
1 54 ethernet2 0 14/ipv4 14 20/auth 34 12/payload 46 0/stop 4
b 17 33
1 54 ethernet2 0 14/ipv4 14 20/auth 34 12/payload 46 1/stop 4
b 35 2
b 17 35
1 54 refused 1 auth 34 required 16 have 15 source ipv4
b 17 36
1 54 ethernet2 0 14/ipv4 14 20/auth 34 16/payload 50 0/stop 4
b 17 37
1 54 ethernet2 0 14/ipv4 14 20/auth 34 16/payload 50 1/stop 4
n AUTH in IPv4, IPv4 entry
x 45000020 00000000 40330000
z 8
x 3b01
z 10
b 3 31
2 40 refused 1 auth 20 required 12 have 11 source ipv4
b 3 32
2 40 ipv4 0 20/auth 20 12/payload 32 0/stop 4
b 3 33
2 40 ipv4 0 20/auth 20 12/payload 32 1/stop 4
b 21 2
b 3 35
2 40 refused 1 auth 20 required 16 have 15 source ipv4
b 3 36
2 40 ipv4 0 20/auth 20 16/payload 36 0/stop 4
b 3 37
2 40 ipv4 0 20/auth 20 16/payload 36 1/stop 4
n AUTH in IPv4, length byte 0, 1 and 2
x 45000020 00000000 40330000
z 8
x 3b01
z 10
b 21 0
2 32 refused 6 auth 20
b 21 1
2 32 ipv4 0 20/auth 20 12/payload 32 0/stop 4
b 21 2
2 32 refused 1 auth 20 required 16 have 12 source ipv4
n AUTH behind AUTH in IPv4
x 4500002c 00000000 40330000
z 8
x 3301
z 10
x 3b01
z 10
2 43 refused 1 ipv4-packet 0 required 44 have 43 source slice
2 44 ipv4 0 20/auth 20 12/payload 32 12/stop 4
2 45 ipv4 0 20/auth 20 12/payload 32 12/stop 4";

pub const LISTS: &[&[u8]] = &[
    HOP_BY_HOP,
    ROUTING,
    DESTINATION,
    CHAINS,
    FRAGMENT,
    AUTH,
    AUTH_IN_IPV4,
];
