// The length tests of the link headers, and of IP headers behind tags: a byte short, exact, a byte long.
const TAGS: &[u8] = b"n Ethernet header
z 12
x 0806
1 13 refused 1 ethernet2 0 required 14 have 13 source slice
1 14 ethernet2 0 14/payload 14 0/stop 1
1 15 ethernet2 0 14/payload 14 1/stop 1
n first tag
z 12
x 8100 0000 0806
1 17 refused 1 vlan 14 required 4 have 3 source slice
1 18 ethernet2 0 14/vlan 14 4/payload 18 0/stop 1
1 19 ethernet2 0 14/vlan 14 4/payload 18 1/stop 1
n second tag
z 12
x 88a8 0000 8100 0000 0806
1 21 refused 1 vlan 18 required 4 have 3 source slice
1 22 ethernet2 0 14/vlan 14 4/vlan 18 4/payload 22 0/stop 1
1 23 ethernet2 0 14/vlan 14 4/vlan 18 4/payload 22 1/stop 1
n third tag, and a fourth left unopened
z 12
x 9100 0000 88a8 0000 8100 0000 8100 0000 0806
1 25 refused 1 vlan 22 required 4 have 3 source slice
1 26 ethernet2 0 14/vlan 14 4/vlan 18 4/vlan 22 4/payload 26 0/stop 2
1 27 ethernet2 0 14/vlan 14 4/vlan 18 4/vlan 22 4/payload 26 1/stop 2
1 29 ethernet2 0 14/vlan 14 4/vlan 18 4/vlan 22 4/payload 26 3/stop 2
1 30 ethernet2 0 14/vlan 14 4/vlan 18 4/vlan 22 4/payload 26 4/stop 2
1 31 ethernet2 0 14/vlan 14 4/vlan 18 4/vlan 22 4/payload 26 5/stop 2";

const PACKETS_BEHIND_TAGS: &[u8] = b"n IPv4 behind one tag
z 12
x 8100 0000 0800 45000014 00000000 403b0000
z 8
1 37 refused 1 ipv4 18 required 20 have 19 source slice
1 38 ethernet2 0 14/vlan 14 4/ipv4 18 20/payload 38 0/stop 4
1 39 ethernet2 0 14/vlan 14 4/ipv4 18 20/payload 38 0/stop 4
n IPv4 behind three tags
z 12
x 9100 0000 88a8 0000 8100 0000 0800 45000014 00000000 403b0000
z 8
1 45 refused 1 ipv4 26 required 20 have 19 source slice
1 46 ethernet2 0 14/vlan 14 4/vlan 18 4/vlan 22 4/ipv4 26 20/payload 46 0/stop 4
1 47 ethernet2 0 14/vlan 14 4/vlan 18 4/vlan 22 4/ipv4 26 20/payload 46 0/stop 4
n IPv6 behind two tags
z 12
x 88a8 0000 8100 0000 86dd 60000000 00003b40
z 32
1 61 refused 1 ipv6 22 required 40 have 39 source slice
1 62 ethernet2 0 14/vlan 14 4/vlan 18 4/ipv6 22 40/payload 62 0/stop 4
1 63 ethernet2 0 14/vlan 14 4/vlan 18 4/ipv6 22 40/payload 62 1/stop 4";

pub const LISTS: &[&[u8]] = &[TAGS, PACKETS_BEHIND_TAGS];
