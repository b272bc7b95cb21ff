//! Printing into a writer that fails: no clause says when `Display` does.
use babel_prefix::{Prefix, Short, parse_addr};
use std::fmt;
use std::fmt::Write;
use std::test::Fail;

/// A writer that takes so many pieces of text and refuses the next one.
#[derive(Drop)]
struct Refusing {
    left: u32,
    refused: bool,
}

impl Refusing {
    fn after(left: u32) -> Refusing {
        Refusing {
            left,
            refused: false,
        }
    }
}

impl Write for Refusing {
    fn write_str(&mut self, _text: &str) -> fmt::Result {
        if self.left == 0 {
            self.refused = true;
            return Err(fmt::Error);
        }
        self.left -= 1;
        Ok(())
    }
}

#[test]
fn display_fails_exactly_where_its_writer_does(rt: HostRuntime) -> Result<(), Fail> {
    for text in &["192.0.2.1", "2001:db8::1:0:0:1"] {
        let addr = parse_addr(text).ok_or("no address")?;
        let prefix = Prefix::new(addr, 24).ok_or("no prefix")?;
        for left in 0..25 {
            let mut writer = Refusing::after(left);
            let failed = write!(writer, "{prefix}").is_err();
            assert_eq!(rt; failed, writer.refused, "after {left} pieces of {text}");
            assert!(rt; failed || 0 < left, "{text} is printed in pieces");
            assert!(rt;
                !failed || left < 24,
                "{text} is printed in 24 pieces at most"
            );
            let mut writer = Refusing::after(left);
            let failed = write!(writer, "{}", Short(addr)).is_err();
            assert_eq!(rt;
                failed,
                writer.refused,
                "after {left} pieces of {text} in short"
            );
            assert!(rt; failed || 0 < left, "{text} is printed in pieces in short");
            let mut writer = Refusing::after(left);
            let failed = write!(writer, "{}", Short(prefix)).is_err();
            assert_eq!(rt;
                failed,
                writer.refused,
                "after {left} pieces of {text}/24 in short"
            );
        }
    }
    Ok(())
}
