// The records that are handed out, written at the front of the lent output. Each writer returns the record's length.
#![tactic(auto)]

ghost use Rattle.std.specs.Prelude.{◌≡◌, ◌+◌, ◌≤◌, length};
ghost use Rattle.wire.specs.Bytes.{patch};
ghost use Rattle.slots.specs.Limits.{output_limit};
ghost use Rattle.datagram.specs.Kind.{packet_size};
ghost use Rattle.datagram.specs.Emitted.{packet_bytes};
ghost use Rattle.emit.specs.Output.{at_front, packet_record, written_record, acknowledged_record, made_record};
ghost use Rattle.emit.specs.Output.{emitted_by};

use datagram::Packet;
use datagram::place::PACKET;
use slots::PortChannel;
use slots::part::{put_port_channel, put_timeout};
use wire::{DIGEST, FRAME, put_array, put_frame, put_u64};

// The records by their whole lengths: a packet; a port, a channel, a sequence and a digest; a packet and a digest; a
// port and a channel.
const PACKET_SIZE: u32 = (FRAME + PACKET) as u32;

const WRITTEN_SIZE: u32 = (FRAME + 14 + DIGEST) as u32;

const ACKNOWLEDGED_SIZE: u32 = (FRAME + PACKET + DIGEST) as u32;

const MADE_SIZE: u32 = (FRAME + 6) as u32;

// The kinds of the records.
const SENT: u16 = 0x0101;

const DELIVERED: u16 = 0x0102;

const WRITTEN: u16 = 0x0103;

const ACKNOWLEDGED: u16 = 0x0104;

const TIMED_OUT: u16 = 0x0105;

const LAPSED: u16 = 0x0106;

const MADE: u16 = 0x0107;

// A record that is emitted, or nothing: a packet alone under one of four kinds, a written acknowledgement's digest with
// its packet's destination and sequence, an acknowledged packet with the digest, or the port and the channel of a new
// end.
#[derive(Clone, Copy)]
pub enum Emission {
    Sent(Packet),
    Delivered(Packet),
    TimedOut(Packet),
    Lapsed(Packet),
    Written {
        destination: PortChannel,
        sequence: u64,
        digest: [u8; DIGEST],
    },
    Acknowledged {
        packet: Packet,
        digest: [u8; DIGEST],
    },
    Made(PortChannel),
    Nothing,
}

fn put_packet(out: &mut [u8], at: usize, p: Packet)
    requires { at + packet_size ≤ length out.old }
    ensures { out.new ≡ patch at (packet_bytes p) out.old }
{
    put_u64(out, at, p.sequence);
    put_timeout(out, at + 8, p.timeout);
    put_port_channel(out, at + 24, p.source);
    put_port_channel(out, at + 30, p.destination);
    put_array(out, at + 36, p.digest);
}

fn emit_packet(out: &mut [u8], kind: u16, p: Packet) -> u32
    requires { output_limit ≤ length out.old }
    ensures output { out.new ≡ at_front (packet_record kind p) out.old }
    ensures size { result ≡ length (packet_record kind p) }
{
    put_frame(out, PACKET_SIZE, kind);
    put_packet(out, FRAME, p);
    PACKET_SIZE
}

// The acknowledgement of a packet, by its destination and its sequence.
fn emit_written(
    out: &mut [u8],
    destination: PortChannel,
    sequence: u64,
    digest: [u8; DIGEST],
) -> u32
    requires { output_limit ≤ length out.old }
    ensures output { out.new ≡ at_front (written_record destination sequence digest) out.old }
    ensures size { result ≡ length (written_record destination sequence digest) }
{
    put_frame(out, WRITTEN_SIZE, WRITTEN);
    put_port_channel(out, FRAME, destination);
    put_u64(out, FRAME + 6, sequence);
    put_array(out, FRAME + 14, digest);
    WRITTEN_SIZE
}

fn emit_acknowledged(out: &mut [u8], p: Packet, digest: [u8; DIGEST]) -> u32
    requires { output_limit ≤ length out.old }
    ensures output { out.new ≡ at_front (acknowledged_record p digest) out.old }
    ensures size { result ≡ length (acknowledged_record p digest) }
{
    put_frame(out, ACKNOWLEDGED_SIZE, ACKNOWLEDGED);
    put_packet(out, FRAME, p);
    put_array(out, FRAME + PACKET, digest);
    ACKNOWLEDGED_SIZE
}

fn emit_made(out: &mut [u8], e: PortChannel) -> u32
    requires { output_limit ≤ length out.old }
    ensures output { out.new ≡ at_front (made_record e) out.old }
    ensures size { result ≡ length (made_record e) }
{
    put_frame(out, MADE_SIZE, MADE);
    put_port_channel(out, FRAME, e);
    MADE_SIZE
}

pub fn emit_record(out: &mut [u8], e: Emission) -> u32
    requires { output_limit ≤ length out.old }
    ensures output { out.new ≡ at_front (emitted_by e) out.old }
    ensures size { result ≡ length (emitted_by e) }
{
    match e {
        Emission::Sent(packet) => emit_packet(out, SENT, packet),
        Emission::Delivered(packet) => emit_packet(out, DELIVERED, packet),
        Emission::TimedOut(packet) => emit_packet(out, TIMED_OUT, packet),
        Emission::Lapsed(packet) => emit_packet(out, LAPSED, packet),
        Emission::Written {
            destination,
            sequence,
            digest,
        } => emit_written(out, destination, sequence, digest),
        Emission::Acknowledged { packet, digest } => emit_acknowledged(out, packet, digest),
        Emission::Made(end) => emit_made(out, end),
        Emission::Nothing => 0,
    }
}
