ghost use Rattle.std.specs.Prelude.{◌≡◌};
ghost use Rattle.babel_selection.specs.Links.{etx, link_cost};

/// A cost, or a metric, that is infinite: RFC 8966, 3.4.3.
pub const INFINITY: u16 = 0xffff;

/// The least Txcost that counts for ETX: RFC 8966, appendix A.2.2.
const LEAST_TXCOST: u16 = 256;

/// What a link costs, by ETX or by 2-out-of-3: RFC 8966, appendix A.2. The Txcost is what the
/// neighbour says that receiving costs it, the Rxcost what its receiver says.
pub fn link_cost(is_etx: bool, txcost: Option<u16>, rxcost: Option<u16>) -> u16
    ensures { result ≡ link_cost is_etx txcost rxcost }
{
    let (Some(txcost), Some(rxcost)) = (txcost, rxcost) else {
        return INFINITY;
    };
    if txcost == INFINITY || rxcost == INFINITY {
        INFINITY
    } else if is_etx {
        etx(txcost, rxcost)
    } else {
        txcost
    }
}

/// The cost by ETX, at most infinite: RFC 8966, appendix A.2.2.
fn etx(txcost: u16, rxcost: u16) -> u16
    ensures { result ≡ etx txcost rxcost }
{
    let cost = u32::from(txcost.max(LEAST_TXCOST)) * u32::from(rxcost) / 256;
    cost.min(u32::from(INFINITY)) as u16
}
