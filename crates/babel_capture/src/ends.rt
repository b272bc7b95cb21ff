use babel_prefix::Addr;

/// The two addresses of an IP header: RFC 791, 3.1; RFC 8200, 3.
#[derive(Clone, Copy)]
pub struct Ends {
    /// Who sent the packet.
    pub sender: Addr,
    /// To whom it is sent.
    pub destination: Addr,
}
