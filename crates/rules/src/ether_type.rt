// Numbers of the link, as the crate names them.
#[derive(Clone, Copy, Debug, PartialEq, Eq)]
pub struct EtherType(pub u16);

pub const VLAN_TAGGED_FRAME: u16 = 0x8100;

pub const PROVIDER_BRIDGING: u16 = 0x88A8;

pub const VLAN_DOUBLE_TAGGED_FRAME: u16 = 0x9100;

pub const IPV4: u16 = 0x0800;

pub const IPV6: u16 = 0x86DD;

// How many tags a frame may hold. A tag type met beyond them is left unopened.
pub const TAG_LIMIT: usize = 3;
