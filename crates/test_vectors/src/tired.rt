// Document 01's "Errors a tired hand makes": an input for each, whose answer the error changes.
const HEADERS: &[u8] = b"n padding taken as samples
z 12
x 0800 45000020 00000000 40110000
z 8
x 00350035 000c0000
1 60 ethernet2 0 14/ipv4 14 20/udp 34 8/payload 42 4/stop 5
b 23 59
1 60 ethernet2 0 14/ipv4 14 20/payload 34 12/stop 4
n IHL tested before the version
z 12
x 0800 54000014 00000000 40110000
z 8
1 34 refused 2 ipv4 14 5
n the fourth tag refused or opened
z 12
x 8100 0000 8100 0000 8100 0000 88a8 0000 0800 45000014 00000000 403b0000
z 8
1 26 ethernet2 0 14/vlan 14 4/vlan 18 4/vlan 22 4/payload 26 0/stop 2
1 50 ethernet2 0 14/vlan 14 4/vlan 18 4/vlan 22 4/payload 26 24/stop 2";

const EXTENSIONS: &[u8] = b"n the mark cleared by a later fragment header
z 12
x 86dd 60000000 00182c40
z 32
x 2c000001
z 4
x 11000000
z 4
x 00350035 00080000
1 78 ethernet2 0 14/ipv6 14 40/fragment 54 8/fragment 62 8/payload 70 8/stop 3
n the AUTH length byte in units of 8
z 12
x 0800 45000028 00000000 40330000
z 8
x 1101
z 10
x 00350035 00080000
1 54 ethernet2 0 14/ipv4 14 20/auth 34 12/udp 46 8/payload 54 0/stop 5
n the same in IPv6
z 12
x 86dd 60000000 00203340
z 32
x 1104
z 22
x 00350035 00080000
1 86 ethernet2 0 14/ipv6 14 40/auth 54 24/udp 78 8/payload 86 0/stop 5";

const SUMS: &[u8] = b"n F11, odd slices joined without padding
x 01
+
x 02
+
s fcff fcff
x 0102
+
s fefd fefd";

pub const LISTS: &[&[u8]] = &[HEADERS, EXTENSIONS, SUMS];
