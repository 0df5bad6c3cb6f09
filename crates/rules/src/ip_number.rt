// Numbers of IP, as the crate names them.
#[derive(Clone, Copy, Debug, PartialEq, Eq)]
pub struct IpNumber(pub u8);

pub const IPV6_HOP_BY_HOP: u8 = 0;

pub const TCP: u8 = 6;

pub const UDP: u8 = 17;

pub const IPV6_ROUTE: u8 = 43;

pub const IPV6_FRAG: u8 = 44;

pub const AUTH: u8 = 51;

pub const IPV6_DEST_OPTIONS: u8 = 60;

// How many IP headers a frame holds.
pub const IP_LIMIT: usize = 1;
