ghost use Rattle.std.specs.Prelude.{◌≡◌};
ghost use Rattle.babel_selection.specs.Seqnos.{is_later, steps_to};

/// How many steps lead from one seqno to another, modulo 2^16: RFC 8966, 3.2.1.
pub(crate) fn steps_to(seqno: u16, before: u16) -> u16
    ensures { result ≡ steps_to seqno before }
{
    seqno.wrapping_sub(before)
}

/// Whether a seqno is larger than another: RFC 8966, 3.2.1.
pub(crate) fn is_later(seqno: u16, other: u16) -> bool
    ensures { result ≡ is_later seqno other }
{
    let steps = steps_to(seqno, other);
    steps > 0 && steps < 0x8000
}
