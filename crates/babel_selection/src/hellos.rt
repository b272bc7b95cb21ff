//! The Hellos of many senders.
ghost use Rattle.std.specs.Prelude.{◌≡◌, [], OnOk};
ghost use Rattle.babel_selection.specs.Hearing.{CountsHello, entry_at};

use crate::hello_count::HelloCount;
use babel_timeline::Sender;
use babel_tlv::Hello;
use std::alloc::{AllocError, Global};
use std::collections::BTreeMap;
use std::marker::Model;

/// What is counted of the multicast Hellos of each sender.
#[derive(Drop)]
pub struct Hellos<S: Sender> {
    counts: BTreeMap<S, HelloCount>,
}

impl<S: Sender> Model for Hellos<S> {
    ghost use Rattle.std.specs.Prelude.{List};
    ghost use Rattle.babel_selection.specs.declared.hello_count.HelloCount.{HelloCount};

    ghost Value = { List (S × HelloCount) };

    ghost view = { λ h. h.counts.entries };
}

impl<S: Sender> Hellos<S> {
    /// None.
    pub fn new(alloc: Global) -> Hellos<S>
        ensures { result ≡ [] }
    {
        Hellos {
            counts: BTreeMap::new(alloc),
        }
    }

    /// Takes a Hello of a sender.
    pub fn hear(&mut self, sender: S, hello: &Hello) -> Result<(), AllocError>
        ensures { OnOk result (CountsHello S.cmp sender hello.now self.old self.new) }
    {
        if hello.is_unicast {
            return Ok(());
        }
        let old = self.count(sender);
        self.counts.insert(sender, HelloCount::after(&old, hello))?;
        Ok(())
    }

    /// What is counted of a sender.
    pub fn count(&self, sender: S) -> Option<HelloCount>
        ensures { result ≡ entry_at S.cmp self.now sender }
    {
        self.counts.get(&sender).copied()
    }
}
