//! Router-ids as words.
ghost use Rattle.std.specs.Prelude.{◌≡◌};
ghost use Rattle.babel_dump.specs.RouterWord.{router_id_of, undivided};

use hex::FromHex;

/// The router-id that a word is: 16 hexadecimal digits in either case, or 8 pairs of them with `:`
/// between each two, as babeld writes it. `None` for any other word.
pub(crate) fn parse_router_id(word: &[u8]) -> Option<[u8; 8]>
    ensures { result ≡ router_id_of word.now }
{
    match undivided(word) {
        Some(digits) => <[u8; 8] as FromHex>::from_hex(digits).ok(),
        None => <[u8; 8] as FromHex>::from_hex(word).ok(),
    }
}

/// The digits of 8 pairs with `:` between each two.
fn undivided(word: &[u8]) -> Option<[u8; 16]>
    ensures { result ≡ undivided word.now }
{
    match *word {
        [
            a,
            b,
            b':',
            c,
            d,
            b':',
            e,
            f,
            b':',
            g,
            h,
            b':',
            i,
            j,
            b':',
            k,
            l,
            b':',
            m,
            n,
            b':',
            o,
            p,
        ] => Some([a, b, c, d, e, f, g, h, i, j, k, l, m, n, o, p]),
        _ => None,
    }
}
