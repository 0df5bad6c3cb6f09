// TCP options: where a frame's stand, and the one at a place.
ghost use Rattle.chain.specs.TcpOptions.{OptionsOfChain, OptionTells};

use rules::{Entry, Range};
use tcp_options::{OptionRefusal, TcpOption};

// What follows byte 20 of the chain's TCP header.
pub fn of_frame(s: &[u8], entry: Entry) -> Option<Range>
    ensures { OptionsOfChain entry s.now result }
{
    match slicer::slice(s, entry) {
        Ok(packet) => packet.tcp_options(s),
        Err(_) => None,
    }
}

#[tactic(auto, using(crate::specs::TcpOptions::option_tells))]
pub fn option(s: &[u8], k: usize) -> Result<Option<TcpOption>, OptionRefusal>
    ensures { OptionTells s.now k result }
{
    tcp_options::option(s, k)
}
