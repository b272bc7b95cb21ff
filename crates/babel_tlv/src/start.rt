ghost use Rattle.std.specs.Prelude.{◌≡◌};
ghost use Rattle.babel_tlv.specs.Context.{sent_by};

use babel_prefix::Addr;

/// What the packets of a dump begin with: RFC 8966, 4.5.
#[derive(Clone, Copy)]
pub struct Start {
    /// Who sent the packets.
    pub sender: Addr,
    /// Whether IPv4 prefixes of routes with IPv6 next hops (address encoding 4) are read: RFC 9229.
    pub via_v6: bool,
}

impl Start {
    /// What the packets of this sender begin with, where address encoding 4 is not read.
    pub fn new(sender: Addr) -> Start
        ensures { result ≡ sent_by sender }
    {
        Start {
            sender,
            via_v6: false,
        }
    }
}
