//! What nodes say of their links, packet by packet.
ghost use Rattle.std.specs.Prelude.{◌≡◌, ◌^◌, ◌<◌, ◌∷◌, [], OnOk};
ghost use Rattle.babel_tlv.specs.Frames.{tlv_value};
ghost use Rattle.babel_selection.specs.Hearing.{no_ihus};
ghost use Rattle.babel_selection.specs.HeardLinks.{Hears, hellos_among, ihu_from, ihus_among};
ghost use Rattle.babel_selection.specs.HeardLinks.{whole_tlvs};

use crate::hellos::Hellos;
use crate::ihu_from::{IhuFrom, IhuSaid};
use crate::ihus::Ihus;
use crate::link_node::LinkNode;
use babel_prefix::Addr;
use babel_table::Stamp;
use babel_timeline::unicast;
use babel_tlv::{Hello, Ihu, Tlv, Tlvs, check_body};
use std::alloc::{AllocError, Global};

/// The Hellos and IHUs of many nodes.
#[derive(Drop)]
pub struct LinkHearing<S: LinkNode> {
    pub hellos: Hellos<S>,
    pub ihus: Ihus<S>,
}

impl<S: LinkNode> LinkHearing<S> {
    /// None.
    pub fn new(alloc: Global) -> LinkHearing<S>
        ensures hellos { result.hellos ≡ [] }
        ensures ihus { result.ihus ≡ no_ihus }
    {
        LinkHearing {
            hellos: Hellos::new(alloc),
            ihus: Ihus::new(alloc),
        }
    }

    /// Hears a packet of a node, which came at this time, to this destination; nothing of it where
    /// a TLV runs past its end.
    pub fn hear(
        &mut self,
        node: S,
        destination: Addr,
        time: u128,
        packet: &[u8],
    ) -> Result<(), AllocError>
        requires { time < 2 ^ 96 }
        ensures { let tlvs = whole_tlvs packet.now in OnOk result (Hears S.cmp
            (hellos_among node tlvs) (ihus_among S.beside node destination time tlvs)
            self.old self.new) }
    {
        let [_, _, _, _, body @ ..] = packet else {
            return Ok(());
        };
        if check_body(body, 0).is_err() {
            return Ok(());
        }
        let mut tlvs = Tlvs::new(body, 0);
        while let Some(tlv) = tlvs.advance() {
            self.hear_tlv(node, destination, time, &tlv)?;
        }
        Ok(())
    }

    /// Hears a TLV of such a packet.
    fn hear_tlv(
        &mut self,
        node: S,
        destination: Addr,
        time: u128,
        tlv: &Tlv<'_>,
    ) -> Result<(), AllocError>
        requires { time < 2 ^ 96 }
        ensures { let tlvs = tlv_value tlv.now ∷ [] in OnOk result (Hears S.cmp
            (hellos_among node tlvs) (ihus_among S.beside node destination time tlvs)
            self.old self.new) }
    {
        self.hear_hello(node, tlv)?;
        self.hear_ihu(node, destination, time, tlv)
    }

    /// Hears a TLV of a node, if it is a Hello.
    fn hear_hello(&mut self, node: S, tlv: &Tlv<'_>) -> Result<(), AllocError>
        ensures { OnOk result (Hears S.cmp
            (hellos_among node (tlv_value tlv.now ∷ [])) [] self.old self.new) }
    {
        if let Some(hello) = Hello::read(tlv) {
            self.hellos.hear(node, &hello)?;
        }
        Ok(())
    }

    /// Hears a TLV of a router, if it is an IHU.
    fn hear_ihu(
        &mut self,
        router: S,
        destination: Addr,
        time: u128,
        tlv: &Tlv<'_>,
    ) -> Result<(), AllocError>
        requires { time < 2 ^ 96 }
        ensures { OnOk result (Hears S.cmp []
            (ihus_among S.beside router destination time (tlv_value tlv.now ∷ []))
            self.old self.new) }
    {
        if let Some(ihu) = Ihu::read(tlv) {
            self.ihus.hear(&ihu_from(router, destination, time, &ihu))?;
        }
        Ok(())
    }
}

/// An IHU of a router, which came at this time, to this destination: RFC 8966, 4.6.6.
fn ihu_from<S: LinkNode>(router: S, destination: Addr, time: u128, ihu: &Ihu) -> IhuFrom<S>
    requires { time < 2 ^ 96 }
    ensures { result ≡ ihu_from S.beside router destination time ihu.now }
{
    let neighbour = match ihu.address.or(unicast(destination)) {
        Some(address) => Some(router.beside(address)),
        None => None,
    };
    IhuFrom {
        router,
        neighbour,
        said: IhuSaid {
            rxcost: ihu.rxcost,
            when: Stamp::new(time, ihu.interval),
        },
    }
}
