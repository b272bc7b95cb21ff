ghost use Rattle.std.specs.Prelude.{◌≡◌};
ghost use Rattle.babel_selection.specs.ToldKeys.{best_used, contains_both, is_longer, is_told};
ghost use Rattle.babel_selection.specs.ToldKeys.{is_chosen};

use babel_prefix::Addr;
use babel_tlv::Key;

/// A key, and whether the router uses a route of it.
#[derive(Clone, Copy)]
pub struct UsedKey {
    pub key: Key,
    pub is_used: bool,
}

/// Whether both prefixes of the key contain their address.
fn contains_both(key: &Key, dst: &Addr, src: &Addr) -> bool
    ensures { result ≡ contains_both dst.now src.now key.now }
{
    key.dst().contains(dst) && key.src().contains(src)
}

/// Whether a key has a longer destination prefix, or one as long and a longer source prefix.
fn is_longer(key: &Key, other: &Key) -> bool
    ensures { result ≡ is_longer key.now other.now }
{
    key.dst().len() > other.dst().len()
        || key.dst().len() == other.dst().len() && key.src().len() > other.src().len()
}

/// Whether a route of the key is used for these addresses, and the key is longer than the best one
/// before it.
fn is_chosen(best: &Option<Key>, one: &UsedKey, dst: &Addr, src: &Addr) -> bool
    ensures { result ≡ is_chosen dst.now src.now best.now one.now }
{
    if !one.is_used || !contains_both(&one.key, dst, src) {
        return false;
    }
    match best {
        Some(best) => is_longer(&one.key, best),
        None => true,
    }
}

/// The best match of the keys of which a route is used: RFC 9079, 4.
pub fn best_used(keys: &[UsedKey], dst: &Addr, src: &Addr) -> Option<Key>
    ensures { result ≡ best_used dst.now src.now keys.now }
{
    let mut best = None;
    for one in keys {
        if is_chosen(&best, one, dst, src) {
            best = Some(one.key);
        }
    }
    best
}

/// Whether it is told of a key, where this is the best match of those of which a route is used.
pub fn is_told(best: &Option<Key>, key: &Key, dst: &Addr, src: &Addr) -> bool
    ensures { result ≡ is_told dst.now src.now best.now key.now }
{
    contains_both(key, dst, src)
        && match best {
            Some(best) => !is_longer(best, key),
            None => true,
        }
}
