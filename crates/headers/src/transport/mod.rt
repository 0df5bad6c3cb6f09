// What a reader of a transport header answers.
pub mod tcp_header;
pub mod udp_header;

#[derive(Clone, Copy)]
pub struct TransportHeader {
    pub len: usize,
    // where the payload ends, counted from the header
    pub end: usize,
}
