ghost use Rattle.std.specs.Prelude.{◌≡◌, Bool};
ghost use Rattle.babel_prefix.specs.Address.{Address};

use babel_prefix::Addr;
use babel_timeline::Sender;

/// A node of a link, of which an address tells another one.
pub trait LinkNode: Sender {
    // The node with this address beside one.
    ghost beside: { Self → Address → Self };

    // Whether two are of one link.
    ghost are_beside: { Self → Self → Bool };

    /// The node of the same link with this address.
    fn beside(self, address: Addr) -> Self
        ensures { result ≡ beside self address };

    /// Whether the other is of the same link.
    fn is_beside(&self, other: &Self) -> bool
        ensures { result ≡ are_beside self.now other.now };
}
