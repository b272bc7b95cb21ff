//! What the first octets of a stream tell: no clause says which are those of a capture.
use super::one_call::Numbered;
use babel_dump::{Begins, Begun};
use babel_library_tests::dumps::octets;
use std::test::Fail;

/// First octets, and what they are: those of pcapng and pcap as their formats say, those of dumps,
/// and others.
static BEGINNINGS: [(&str, Begins); 14] = [
    ("0a0d0d0a", Begins::Capture),
    ("0a0d0d0a1c000000", Begins::Capture),
    ("a1b2c3d4", Begins::Capture),
    ("d4c3b2a1", Begins::Capture),
    ("a1b23c4d", Begins::Capture),
    ("4d3cb2a1", Begins::Capture),
    ("", Begins::Dump),
    ("2a", Begins::Dump),
    ("2a020000", Begins::Dump),
    ("2a030000", Begins::Other),
    ("0a0d0d", Begins::Other),
    ("0a0d0d0b", Begins::Other),
    ("a1b2c34d", Begins::Other),
    ("00d4c3b2a1", Begins::Other),
];

#[test]
fn first_octets(rt: HostRuntime) -> Result<(), Fail> {
    for (first, begins) in &BEGINNINGS {
        let octets = octets(rt.alloc(), first)?;
        let begun = Begun::new(octets.as_slice());
        assert!(rt; begun.begins() == *begins, "{first}");
    }
    Ok(())
}

/// A read that fails before four octets came leaves it open what they are.
#[test]
fn a_read_of_them_that_fails(rt: HostRuntime) {
    for failing_call in 1..8 {
        let begun = Begun::new(Numbered::failing_at(failing_call));
        let begins = if failing_call <= 4 {
            Begins::Failed
        } else {
            Begins::Other
        };
        assert!(rt; begun.begins() == begins, "{failing_call}");
    }
}
