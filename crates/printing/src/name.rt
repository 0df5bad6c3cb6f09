// The names of header kinds, layers and sources in a line.
ghost use Rattle.std.specs.Prelude.{◌≡◌};
ghost use Rattle.rules.specs.Named.{kind_number, layer_number, source_number};
ghost use Rattle.printing.specs.Text.{name_of, source_name};

use rules::{Kind, Layer, Source};

pub fn kind_name(kind: Kind) -> &'static str
    ensures { result.now ≡ name_of (kind_number kind) }
{
    match kind {
        Kind::Ethernet2 => "ethernet2",
        Kind::Vlan => "vlan",
        Kind::Ipv4 => "ipv4",
        Kind::Ipv6 => "ipv6",
        Kind::HopByHop => "hop-by-hop",
        Kind::Routing => "routing",
        Kind::Destination => "destination",
        Kind::Fragment => "fragment",
        Kind::Auth => "auth",
        Kind::Udp => "udp",
        Kind::Tcp => "tcp",
    }
}

pub fn layer_name(layer: Layer) -> &'static str
    ensures { result.now ≡ name_of (layer_number layer) }
{
    match layer {
        Layer::Of(kind) => kind_name(kind),
        Layer::Ipv4Packet => "ipv4-packet",
        Layer::Ipv6Packet => "ipv6-packet",
        Layer::UdpPayload => "udp-payload",
    }
}

pub fn source_name(source: Source) -> &'static str
    ensures { result.now ≡ source_name (source_number source) }
{
    match source {
        Source::Slice => "slice",
        Source::Ipv4 => "ipv4",
        Source::Ipv6 => "ipv6",
        Source::Udp => "udp",
    }
}
