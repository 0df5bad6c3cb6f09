// How a frame begins, as the collector says.
#[derive(Clone, Copy, Debug, PartialEq, Eq)]
pub enum Entry {
    Ethernet,
    Ipv4,
    Ipv6,
}
