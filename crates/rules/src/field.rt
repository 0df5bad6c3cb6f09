// Where the fields stand that document 01's rules look at: offsets in their headers, as specs/Fields.antt has them.
pub const ETHERNET2_TYPE: usize = 12;

pub const VLAN_TYPE: usize = 2;

// version in the upper half of the byte, IHL in the lower
pub const IPV4_VERSION_IHL: usize = 0;

pub const IPV4_TOTAL_LENGTH: usize = 2;

// the more-fragments bit above the fragment offset
pub const IPV4_FRAGMENT: usize = 6;

pub const IPV4_PROTOCOL: usize = 9;

// in the upper half of the byte
pub const IPV6_VERSION: usize = 0;

pub const IPV6_PAYLOAD_LENGTH: usize = 4;

pub const IPV6_NEXT_HEADER: usize = 6;

// of every extension header
pub const EXT_NEXT_HEADER: usize = 0;

pub const EXT_LENGTH: usize = 1;

// the fragment offset above the M bit, two bits between them
pub const FRAGMENT_OFFSET: usize = 2;

pub const UDP_LENGTH: usize = 4;

// in the upper half of the byte
pub const TCP_DATA_OFFSET: usize = 12;
