// Header lengths in bytes: the least that a header of each kind can have, which is tested first.
pub const ETHERNET2: usize = 14;

pub const VLAN: usize = 4;

pub const IPV4: usize = 20;

pub const IPV6: usize = 40;

pub const RAW_EXT: usize = 8;

pub const FRAGMENT: usize = 8;

pub const AUTH: usize = 12;

pub const UDP: usize = 8;

pub const TCP: usize = 20;

// The least that IHL and the TCP data offset can say, in words of four bytes.
pub const LEAST_WORDS: usize = 5;
