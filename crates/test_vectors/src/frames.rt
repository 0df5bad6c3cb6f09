// Document 01's frames, with the answers as it has them. Bytes that it leaves free are zero.
const LINK: &[u8] = b"n F1
z 12
x 0806
1 13 refused 1 ethernet2 0 required 14 have 13 source slice
1 14 ethernet2 0 14/payload 14 0/stop 1
n F2
z 12
x 8100 0000 8100 0000 8100 0000 8100
1 26 ethernet2 0 14/vlan 14 4/vlan 18 4/vlan 22 4/payload 26 0/stop 2
n F3
z 12
x 8100 0000 8100
1 21 refused 1 vlan 18 required 4 have 3 source slice";

const NETWORK: &[u8] = b"n F4
z 12
x 0800 45000013 00000000 00000000
z 8
1 34 refused 1 ipv4-packet 14 required 20 have 19 source ipv4
b 17 21
1 34 refused 1 ipv4-packet 14 required 21 have 20 source slice
b 17 20
b 23 17
1 34 refused 1 udp 34 required 8 have 0 source ipv4
n F5
z 12
x 86dd 60000000 00080000
z 32
1 62 refused 5 hop-by-hop 62
n F6
z 12
x 86dd 60000000 00082c00
z 32
x 11000001
1 62 ethernet2 0 14/ipv6 14 40/fragment 54 8/payload 62 0/stop 3
b 57 0
1 62 refused 1 udp 62 required 8 have 0 source ipv6
n F7
z 12
x 0800 45000020 00000000 00330000
z 8
1 46 refused 6 auth 34
b 17 31
1 46 refused 1 auth 34 required 12 have 11 source ipv4";

// Document 01 names no IP version for F8 and F9: each stands here over both.
const TRANSPORT: &[u8] = b"n F8 over IPv4
z 12
x 0800 4500001c 00000000 00110000
z 8
x 00000000 00070000
1 42 refused 1 udp 34 required 8 have 7 source udp
b 39 0
1 42 ethernet2 0 14/ipv4 14 20/udp 34 8/payload 42 0/stop 5
n F8 over IPv6
z 12
x 86dd 60000000 00081100
z 32
x 00000000 00070000
1 62 refused 1 udp 54 required 8 have 7 source udp
b 59 0
1 62 ethernet2 0 14/ipv6 14 40/udp 54 8/payload 62 0/stop 5
n F9 over IPv4
z 12
x 0800 45000028 00000000 00060000
z 8
z 12
x 40
1 54 refused 7 tcp 34 4
b 46 96
1 54 refused 1 tcp 34 required 24 have 20 source ipv4
n F9 over IPv6
z 12
x 86dd 60000000 00140600
z 32
z 12
x 40
1 74 refused 7 tcp 54 4
b 66 96
1 74 refused 1 tcp 54 required 24 have 20 source ipv6";

// F12, the 60-byte line, and the empty input.
const WHOLE_TEXTS: &[u8] = b"n F12
z 12
x 8100 0000 0800 45000020 00000000 00110000
z 8
x 00000000 000c0000
1 60 ethernet2 0 14/vlan 14 4/ipv4 18 20/udp 38 8/payload 46 4/stop 5
n the 60-byte line
z 12
x 0800 4500003c 00000000 00000000
z 8
1 60 refused 1 ipv4-packet 14 required 60 have 46 source slice
n no bytes
1 0 refused 1 ethernet2 0 required 14 have 0 source slice
2 0 refused 1 ipv4 0 required 20 have 0 source slice
3 0 refused 1 ipv6 0 required 40 have 0 source slice";

pub const LISTS: &[&[u8]] = &[LINK, NETWORK, TRANSPORT, WHOLE_TEXTS];
