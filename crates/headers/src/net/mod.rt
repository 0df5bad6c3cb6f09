// What a reader of an IP header or of an extension header answers.
use rules::{Fragment, IpNumber};

pub mod ip_auth_header;
pub mod ipv4_header;
pub mod ipv6_fragment_header;
pub mod ipv6_header;
pub mod ipv6_raw_ext_header;

#[derive(Clone, Copy)]
pub struct IpHeader {
    pub names: IpNumber,
    pub fragment: Fragment,
    pub len: usize,
    // the declared length: total length, or 40 + payload length; none where the payload length is 0
    pub declared: Option<usize>,
}

#[derive(Clone, Copy)]
pub struct ExtHeader {
    pub names: IpNumber,
    pub len: usize,
    pub fragment: Fragment,
}
