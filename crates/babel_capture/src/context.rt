ghost use Rattle.std.specs.Prelude.{◌≡◌, ◌↔◌, ◌≤◌, ◌+◌, ◌-◌, ◌^◌, ◌<◌, length, slice_get, nat_le};
ghost use Rattle.std.specs.Prelude.{OnErr, OnOk, IfOk, IfErr, IfSome, IfNone, IsTrue, Err};
ghost use Rattle.babel_capture.specs.Blocks.{BeginsBlock, IsEnd, IsPartial};
ghost use Rattle.babel_capture.specs.Contents.{captured_of, content_of, context_after};
ghost use Rattle.babel_capture.specs.Contents.{started_with};
ghost use Rattle.babel_capture.specs.Gathering.{BlockNeedsMemory};
ghost use Rattle.babel_capture.specs.Reading.{HeaderFails};
ghost use Rattle.babel_capture.specs.Tallies.{Senders};
ghost use Rattle.babel_capture.specs.Blocks.{start};
ghost use Rattle.babel_capture.specs.declared.wanted.Wanted.{Wanted as WantedSaid};

use crate::block::{Block, Packet};
use crate::fault::Fault;
use crate::layout::{Interface, Layout};
use crate::time::Time;
use crate::window::Window;
use std::alloc::{AllocError, Global};
use std::marker::Model;

/// How many interfaces of a capture are kept at most.
const MOST_INTERFACES: usize = 65_536;

/// What the blocks before a block of a capture say about it.
#[derive(Drop)]
pub struct Context {
    limit: u64,
    layout: Layout,
    first: usize,
    interfaces: Vec<Interface>,
    window: Window,
    start: Option<Time>,
    to_cut: bool,
}

impl Model for Context {
    ghost use Rattle.std.specs.Prelude.{◌≤◌, length};
    ghost use Rattle.babel_capture.specs.Context.{Before};

    ghost Value = { Before };

    ghost view = { λ c. record {
      limit = c.limit;
      layout = c.layout;
      first = c.first;
      interfaces = c.interfaces.items;
      window = c.window;
      start = c.start;
      to_cut = c.to_cut;
    } };

    ghost invariant = { λ c. c.first ≤ length c.interfaces.items };
}

impl Context {
    /// The context of the first block, where so many octets are read at most, packets of this
    /// window, and, with `to_cut`, up to a record that a full disk leaves.
    pub fn new(alloc: Global, limit: u64, window: &Window, to_cut: bool) -> Context
        ensures { result ≡ start
            (record { octets = limit; window = window.now; to_cut = to_cut }) }
    {
        Context {
            limit,
            layout: Layout::Start,
            first: 0,
            interfaces: Vec::new(alloc),
            window: *window,
            start: None,
            to_cut,
        }
    }

    /// Which packets are read.
    pub fn window(&self) -> Window
        ensures { result ≡ self.now.window }
    {
        self.window
    }

    /// When the first packet came, where times are asked for.
    pub fn start(&self) -> Option<Time>
        ensures { result ≡ self.now.start }
    {
        self.start
    }

    /// How many octets of the capture are read at most.
    pub fn limit(&self) -> u64
        ensures { result ≡ self.now.limit }
    {
        self.limit
    }

    /// What the blocks are.
    pub fn layout(&self) -> Layout
        ensures { result ≡ self.now.layout }
    {
        self.layout
    }

    /// The number of the section's first interface.
    pub fn first(&self) -> usize
        ensures value { result ≡ self.now.first }
        ensures small { result < 2 ^ 63 }
    {
        self.first
    }

    /// The interface with this number in the capture.
    pub fn interface(&self, number: usize) -> Option<Interface>
        ensures { result ≡ slice_get self.now.interfaces number }
    {
        self.interfaces.get(number).copied()
    }

    /// Whether there is room for no interface more.
    pub fn is_full(&self) -> bool
        ensures { result ≡ nat_le 65536 (length self.now.interfaces) }
    {
        self.interfaces.len() >= MOST_INTERFACES
    }

    /// The octets of the whole block that these octets, at this offset, begin with; `None` if they
    /// are less than a block.
    #[tactic(auto, unfolding(crate::specs::Lengths::block_len))]
    pub fn first_block<'a>(&self, at: u64, octets: &'a [u8]) -> Result<Option<&'a [u8]>, Fault>
        ensures whole { IfOk result (λ found. IfSome found
            (λ block. BeginsBlock self.now at octets.now block.now)) }
        ensures room { IfOk result (λ found. IfSome found (λ block. (12 ≤ length block.now)
            × (length block.now ≤ self.now.limit - at))) }
        ensures fits { IfOk result (λ found. IfSome found
            (λ block. at + length block.now < 2 ^ 64)) }
        ensures less { IfOk result (λ found. IfNone found (IsPartial self.now at octets.now)) }
        ensures err { IfErr result (λ fault. HeaderFails self.now at octets.now fault) }
    {
        let header_len = self.layout.header_len();
        if octets.len() < header_len {
            return Ok(None);
        }
        let header = &octets[..header_len];
        let len = self.layout.block_len(self.to_cut, header, at)?;
        let needed = if len == 0 {
            octets.len() as u64
        } else {
            len as u64
        };
        if self.limit.saturating_sub(at) < needed {
            return Err(Fault::TooLong { at });
        }
        if len == 0 || octets.len() < len as usize {
            return Ok(None);
        }
        Ok(Some(&octets[..len as usize]))
    }

    /// Whether these octets, at this offset, begin with the end of what is read.
    pub fn is_end(&self, at: u64, octets: &[u8]) -> bool
        ensures { IsTrue result ↔ IsEnd self.now at octets.now }
    {
        let header_len = self.layout.header_len();
        octets.len() >= header_len
            && matches!(
                self.layout
                    .block_len(self.to_cut, &octets[..header_len], at),
                Ok(0)
            )
    }

    /// How many octets make the header whole that these octets, at this offset, begin; or, if it
    /// is, the block.
    pub fn lacking(&self, at: u64, octets: &[u8]) -> usize {
        let header_len = self.layout.header_len();
        if octets.len() < header_len {
            return header_len - octets.len();
        }
        match self
            .layout
            .block_len(self.to_cut, &octets[..header_len], at)
        {
            Ok(len) => (len as usize).saturating_sub(octets.len()),
            Err(_) => 0,
        }
    }

    /// Takes what a block says.
    #[inline(always)]
    pub fn take(&mut self, said: &Block<'_>) -> Result<(), AllocError>
        ensures limit { self.new.limit ≡ self.old.limit }
        ensures ok { OnOk result (self.new ≡ context_after self.old (content_of said.now)) }
        ensures err { OnErr result ((wanted : WantedSaid) (senders : Senders)
            → BlockNeedsMemory wanted senders (content_of said.now)) }
    {
        match said {
            Block::File { order, interface } => {
                self.layout = Layout::Pcap(*order);
                self.interfaces.push(*interface)?;
            }
            Block::Section(order) => {
                self.layout = Layout::Section(*order);
                self.first = self.interfaces.len();
            }
            Block::Interface { interface, .. } => self.interfaces.push(*interface)?,
            Block::Packet(packet) | Block::Skipped(packet) => self.start_with(packet),
            Block::Other => (),
        }
        Ok(())
    }

    /// Keeps when the first packet came, where times are asked for.
    fn start_with(&mut self, packet: &Packet<'_>)
        ensures { self.new ≡ started_with self.old.window self.old (captured_of packet.now).moment }
    {
        if let Window::Between { .. } = self.window {
            if self.start.is_none() {
                self.start = packet.time();
            }
        }
    }
}
