//! What follows from the definitions alone.
ghost use Rattle.std.specs.Prelude.{◌≡◌, ◌≢◌, ℕ, ◌+◌, ◌<◌, ◌≤◌, ◌++◌, ◌⊎◌, List, [], length, take};
ghost use Rattle.std.specs.Prelude.{true};
ghost use Rattle.babel_capture.specs.Capture.{CaptureFault, IsRead};
ghost use Rattle.babel_capture.specs.Dumps.{dump_of};
ghost use Rattle.babel_capture.specs.Findings.{Finds, Found, octets_found};
ghost use Rattle.babel_capture.specs.Gathering.{Gathering};
ghost use Rattle.babel_capture.specs.OneCapture.{CaptureIsOne, CutCaptureIsOne};
ghost use Rattle.babel_capture.specs.OneFault.{CutIsTheFault, FaultIsOne, ReadHasNoFault};
ghost use Rattle.babel_capture.specs.OneOrigin.{AloneIsTheSame, MissingIsNone, NamedIsOne};
ghost use Rattle.babel_capture.specs.Packets.{ArePackets, IsPastEnd};
ghost use Rattle.babel_capture.specs.PcapFiles.{IsPcap, IsReadAs, PcapFile};
ghost use Rattle.babel_capture.specs.PcapFiles.{packets_in, packets_of, pcap_octets};
ghost use Rattle.babel_capture.specs.PcapngFiles.{Hold, IsSection, PcapngBlock, SectionHeader};
ghost use Rattle.babel_capture.specs.PcapngFiles.{pcapng_octets};
ghost use Rattle.babel_capture.specs.Contents.{Captured};
ghost use Rattle.babel_capture.specs.declared.order.Order.{Order};
ghost use Rattle.babel_capture.specs.Reading.{Stops};
ghost use Rattle.babel_capture.specs.Senders.{AreSenders};
ghost use Rattle.babel_capture.specs.PutTogether.{PutTogetherIsRead, PutTogetherIsWhole};
ghost use Rattle.babel_capture.specs.Unfragmented.{UnfragmentedIsOneByOne};
ghost use Rattle.babel_capture.specs.Window.{Extent, all_times};
ghost use Rattle.babel_tlv.specs.FrameFaults.{FrameFault};
ghost use Rattle.babel_tlv.specs.declared.fault.Fault.{Fault as DumpFault};
ghost use Rattle.babel_capture.specs.declared.fault.Fault.{Fault};
ghost use Rattle.babel_capture.specs.declared.fault.Fault.TheVariants.{Memory};
ghost use Rattle.babel_capture.specs.declared.wanted.Wanted.{Wanted};
ghost use Rattle.babel_capture.specs.Backing.{Backs};
ghost use Rattle.babel_capture.specs.Frame.{frame_sight};
ghost use Rattle.babel_capture.specs.InFrame.{AreOctets, IsInFrame};
ghost use Rattle.babel_capture.specs.IpFragments.{IpFragment, fragment_sight};
ghost use Rattle.babel_capture.specs.LaidOut.{IsBabel, IsOverIp, IsPartOverIp, UdpDatagram};
ghost use Rattle.babel_capture.specs.LinkHeaders.{HasEtherType, HasFamily, IsHeader};
ghost use Rattle.babel_capture.specs.LinkHeaders.{IsOtherFamily, IsOtherType};
ghost use Rattle.byteorder.specs.Endian.{big_bytes, little_bytes};
ghost use Rattle.babel_capture.specs.declared.ends.Ends.{Ends};
ghost use Rattle.babel_capture.specs.Sight.{Sight, carries, datagram, lacking, other};
ghost use Rattle.babel_capture.specs.declared.link.Link.{Link as LinkType};
ghost use Rattle.babel_capture.specs.declared.lack.Lack.TheVariants.{Snapped};
ghost use Rattle.babel_capture.specs.declared.place.Place.{Place};

/// What is seen of a frame is in the frame: a datagram was snapped only if the recorder left octets
/// out, and a payload is that of a UDP datagram which stands in the octets that it kept, both of
/// whose ports are that of Babel, and whose sender may send it.
#[tactic(auto, using(crate::proofs::BackingLaws::frame_backed))]
pub fn sight_is_backed()
    ensures { (interface : ℕ) (link : LinkType) (octets : List ℕ) (all : ℕ)
        → Backs octets all (frame_sight interface link octets all) }
{}

/// A Babel datagram that is laid out as the RFCs say, over IPv4 with any options or over IPv6 with
/// up to eight extension headers, in a frame of any link type that is read, with up to four VLAN
/// tags where it has an EtherType, and with any padding, is seen as what it carries, between its
/// addresses and at its place, whatever its IP packet has after it, kept or not.
pub fn laid_out_is_seen()
    ensures { (link : LinkType) (interface ether_type : ℕ) (place : Place) (ends : Ends)
        (udp : UdpDatagram) (header packet after : List ℕ) (more all : ℕ)
        → IsHeader link interface ether_type place header
        → IsBabel udp → IsOverIp ether_type ends udp packet more
        → length header + (length packet + more) ≤ all
        → frame_sight interface link (header ++ (packet ++ after)) all
        ≡ datagram place ends (carries udp.payload) }
{}

/// A fragment of a UDP datagram that is laid out as the RFCs say, over IPv4 with any options or
/// over IPv6 with up to eight extension headers before that of fragments, is seen as that fragment.
pub fn fragment_is_seen()
    ensures { (link : LinkType) (interface ether_type : ℕ) (place : Place) (fragment : IpFragment)
        (header packet after : List ℕ) (all : ℕ)
        → IsHeader link interface ether_type place header
        → IsPartOverIp ether_type place packet fragment
        → length header + length packet ≤ all
        → frame_sight interface link (header ++ (packet ++ after)) all ≡ fragment_sight fragment }
{}

/// And nothing else is: where the octets of a frame are seen as a packet, they are laid out so.
pub fn seen_is_laid_out()
    ensures { (link : LinkType) (interface : ℕ) (place : Place) (ends : Ends)
        (payload octets : List ℕ) (all : ℕ) → AreOctets octets
        → frame_sight interface link octets all ≡ datagram place ends (carries payload)
        → IsInFrame link interface place ends payload octets all }
{}

/// After a link header whose EtherType, up to four tags included, or whose protocol family is none
/// of IP's, nothing of Babel is seen, whatever comes next.
pub fn other_type_is_passed()
    ensures family { (link : LinkType) (interface family : ℕ) (header octets : List ℕ) (all : ℕ)
        → HasFamily link → IsOtherFamily family
        → (header ≡ big_bytes 4 family) ⊎ (header ≡ little_bytes 4 family)
        → frame_sight interface link (header ++ octets) all ≡ other }
    ensures ether_type { (link : LinkType) (interface ether_type : ℕ) (place : Place)
        (header octets : List ℕ) (all : ℕ)
        → HasEtherType link → IsHeader link interface ether_type place header
        → IsOtherType ether_type → frame_sight interface link (header ++ octets) all ≡ other }
{}

/// Where the recorder kept the first octets of such a frame, the datagram's ports within, it is
/// seen as one that was cut.
pub fn cut_is_seen()
    ensures { (link : LinkType) (interface ether_type : ℕ) (place : Place) (ends : Ends)
        (udp : UdpDatagram) (header packet : List ℕ) (more n all : ℕ)
        → IsHeader link interface ether_type place header
        → IsBabel udp → IsOverIp ether_type ends udp packet more
        → length packet ≤ n + (4 + length udp.payload) → n < length packet
        → length header + (length packet + more) ≤ all
        → frame_sight interface link (header ++ take n packet) all
        ≡ datagram place ends (lacking Snapped) }
{}

/// Octets hold one list of packets: whatever a capture gives, it is gathered of these.
pub fn packets_are_one()
    ensures { (limit : Extent) (octets : List ℕ) (packets : List Captured) (gathering : Gathering)
        → IsReadAs limit octets packets → (read : IsRead limit octets gathering)
        → packets_of read.blocks ≡ packets }
{}

/// A pcap file that is laid out as its format says, in either byte order, with times in
/// microseconds or in nanoseconds, is read as exactly the packets of its records.
pub fn pcap_is_read()
    ensures { (limit : ℕ) (pcap : PcapFile) (link : LinkType) → IsPcap pcap link
        → length (pcap_octets pcap) ≤ limit
        → IsReadAs (all_times limit) (pcap_octets pcap) (packets_in pcap link) }
{}

/// A pcapng file that is laid out as its format says, of sections in either byte order, each of
/// descriptions, packets in each of their three blocks, and blocks of other types, is read as
/// exactly its packets, with interfaces numbered over all sections.
pub fn pcapng_is_read()
    ensures { (limit : ℕ) (order : Order) (head : SectionHeader) (blocks : List PcapngBlock)
        (packets : List Captured) → IsSection order head → Hold order 0 [] blocks packets
        → length (pcapng_octets order head blocks) ≤ limit
        → IsReadAs (all_times limit) (pcapng_octets order head blocks) packets }
{}

/// What is found in a packet of a capture is a whole Babel packet, if anything is.
pub fn found_is_a_packet()
    ensures { (wanted : Wanted) (sight : Sight) (what : Found) → Finds wanted sight what
        → ArePackets (octets_found what) }
{}

/// The dump of a capture is whole Babel packets, end to end.
pub fn dump_is_packets()
    ensures { (limit : Extent) (octets : List ℕ) (gathering : Gathering)
        → (read : IsRead limit octets gathering) → ArePackets (dump_of read.gathered.made) }
{}

/// The dump of a capture has no fault of framing but a TLV past the end of its packet: no packet of
/// it is truncated, or has a wrong magic or version.
pub fn dump_is_framed()
    ensures { (limit : Extent) (octets : List ℕ) (gathering : Gathering)
        → (read : IsRead limit octets gathering) → (fault : DumpFault)
        → FrameFault (dump_of read.gathered.made) fault → IsPastEnd fault }
{}

/// The senders that are counted of a capture are those of whom a packet was found: each once at
/// each place, by place and then by address, with the number of its packets and of their
/// octets.
pub fn senders_are_those_found()
    ensures { (limit : Extent) (octets : List ℕ) (gathering : Gathering)
        → (read : IsRead limit octets gathering) → gathering.wanted.are_listed ≡ true
        → AreSenders read.gathered.made gathering.senders }
{}

/// A fault of a capture that shows before its end stays its fault, however it goes on.
pub fn fault_stays()
    ensures { (limit : Extent) (wanted : Wanted) (octets more : List ℕ) (fault : Fault)
        → Stops limit wanted octets fault
        → Stops limit wanted (octets ++ more) fault }
{}

/// The fault of a capture is never out of memory.
pub fn fault_is_of_octets()
    ensures { (limit : Extent) (wanted : Wanted) (octets : List ℕ) (fault : Fault)
        → CaptureFault limit wanted octets fault → fault ≢ Memory }
{}

/// Octets are one capture: however its pieces were cut, what the packets of it give is one, and so
/// is the place where it is cut short.
pub fn capture_is_one()
    ensures whole { CaptureIsOne }
    ensures cut { CutCaptureIsOne }
{}

/// Where no frame of a capture is seen as a fragment, its packets are read one by one, each as its
/// frame is seen.
pub fn unfragmented_is_one_by_one()
    ensures { UnfragmentedIsOneByOne }
{}

/// However a datagram was cut into fragments that do not overlap, and in whatever order they came,
/// the last of them makes it whole, and none before; and it is read as the same datagram sent
/// whole.
pub fn put_together_is_read()
    ensures whole { PutTogetherIsWhole }
    ensures read { PutTogetherIsRead }
{}

/// Octets have one outcome or one fault.
pub fn outcome_is_one()
    ensures read { ReadHasNoFault }
    ensures cut { CutIsTheFault }
    ensures fault { FaultIsOne }
{}

/// What is found of one sender at one place is the same where it alone is wanted as where nobody is
/// named, each packet with its number and time; and where a datagram of it is missed, nothing is
/// read where it alone is wanted.
pub fn alone_is_the_same()
    ensures whole { AloneIsTheSame }
    ensures missing { MissingIsNone }
{}

/// Where the datagrams of one sender at one place are wanted, there is one tally at most.
pub fn named_is_one()
    ensures { NamedIsOne }
{}
