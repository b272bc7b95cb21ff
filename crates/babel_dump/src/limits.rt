ghost use Rattle.std.specs.Prelude.{◌≡◌, ◌↔◌, IfOk, IfErr, IsOk};
ghost use Rattle.babel_table.specs.Bounds.{AreBounds};
ghost use Rattle.babel_dump.specs.AskedLimits.{asked_bounds};

use babel_table::Limits;

/// Fewer octets than 83 for each route, too few for a table of that many routes.
#[derive(Clone, Copy)]
pub(crate) struct TooFew {
    pub octets: u32,
    pub routes: u32,
}

/// The limits that `--max-octets` and `--max-routes` ask for. Where they are left out there may be
/// 262,144 routes, and 33,554,432 octets, or 83 for each route if that is more.
pub(crate) fn asked_limits(octets: Option<u32>, routes: Option<u32>) -> Result<Limits, TooFew>
    ensures fits { IsOk result ↔ AreBounds (asked_bounds octets routes) }
    ensures ok { IfOk result (λ limits. limits ≡ asked_bounds octets routes) }
    ensures octets { IfErr result (λ few. few.octets ≡ (asked_bounds octets routes).bytes) }
    ensures routes { IfErr result (λ few. few.routes ≡ (asked_bounds octets routes).entries) }
{
    let usual = Limits::usual();
    let routes = routes.unwrap_or(usual.entries());
    let octets = octets.unwrap_or(usual.bytes().max(routes.saturating_mul(83)));
    Limits::new(octets, routes).ok_or(TooFew { octets, routes })
}
