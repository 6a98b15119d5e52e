// Frames whose FCS is published: captured ones, which end in it, low byte first, and the long patterns of a test.
use tally::Tally;

// All frames.
pub fn run(t: Tally) -> Tally {
    let t = captured(t);
    patterns(t)
}

// A frame with its published FCS: that is what we compute, the frame passes the test, and with one bit turned it does not. The register
// over the whole frame is the residue that the Linux driver bnx2.c (6.1) names CRC32_RESIDUAL.
fn frame<const N: usize>(t: Tally, mut f: [u8; N], fcs: u32) -> Tally {
    let Some((data, _)) = f.split_last_chunk::<4>() else {
        return t.with(false);
    };
    let m = data.len();
    let t = t
        .with(fcs::fcs_of(data) == fcs)
        .with(fcs::right_fcs(&f))
        .with(fcs::register_of(&f) == 0xDEBB20E3);
    f[m] ^= 1;
    t.with(!fcs::right_fcs(&f))
}

// tcpflow 1.6.1, tests/bug3.pcap, packet 1: the least length that a frame has.
const CAPTURED_64: [u8; 64] =
    *b"\x00\x1d\xd9\x2e\x4f\x61\x00\x1d\x6b\x99\x98\x68\x08\x00\x45\x00\x00\x2c\xa0\x74\x00\x00\xec\x06\xb4\x85\x41\xd4\x76\x15\xc0\xa8\x01\x40\x00\x50\x82\x82\x9c\x8e\xf9\x7b\x85\xc5\x98\x9b\x60\x12\x1f\xfe\xc7\x40\x00\x00\x02\x04\x05\x7c\x00\x00\x1d\xa3\x4f\x2e";

// tcpdump 4.99.3, tests/bfd-raw-auth-simple.pcap, packet 1.
const CAPTURED_79: [u8; 79] =
    *b"\x00\x00\x01\x00\x00\x01\x00\x10\x94\x00\x00\x02\x08\x00\x45\x00\x00\x3d\x00\x00\x00\x00\x0a\x11\x2f\x58\xc0\x55\x01\x02\xc0\x00\x00\x01\x04\x00\x0e\xc8\x00\x29\x72\x31\x20\x44\x05\x21\x00\x00\x00\x01\x00\x00\x00\x00\x00\x0f\x42\x40\x00\x0f\x42\x40\x00\x00\x00\x00\x01\x09\x02\x73\x65\x63\x72\x65\x74\x4e\x0a\x90\x40";

// tcpdump 4.99.3, tests/bfd-raw-auth-sha1.pcap, packet 1.
const CAPTURED_98: [u8; 98] =
    *b"\x00\x00\x01\x00\x00\x01\x00\x10\x94\x00\x00\x02\x08\x00\x45\x00\x00\x50\x00\x00\x00\x00\x0a\x11\x2f\x45\xc0\x55\x01\x02\xc0\x00\x00\x01\x04\x00\x0e\xc8\x00\x3c\x37\x8a\x20\x44\x05\x34\x00\x00\x00\x01\x00\x00\x00\x00\x00\x0f\x42\x40\x00\x0f\x42\x40\x00\x00\x00\x00\x05\x1c\x02\x00\x00\x00\x00\x05\x01\x02\x03\x04\x05\x06\x07\x08\x09\x10\x11\x12\x13\x14\x15\x16\x17\x18\x19\x1a\xea\x6d\x1f\x21";

// The captured frames.
fn captured(t: Tally) -> Tally {
    let t = frame(t, CAPTURED_64, 0x2E4FA31D);
    let t = frame(t, CAPTURED_79, 0x40900A4E);
    frame(t, CAPTURED_98, 0x211F6DEA)
}

// DPDK 22.11, app/test/test_crc.c: twelve bytes 29 times, and their FCS (crc32_vec2), and the same bytes 126 times, and theirs (crc32_vec1).
fn patterns(t: Tally) -> Tally {
    let t = frame(t, pattern::<352>(b"\x2f\xe0\xaa\xef"), 0xEFAAE02F);
    frame(t, pattern::<1516>(b"\x94\xd2\x54\xac"), 0xAC54D294)
}

// The twelve bytes of the patterns over and over, and an FCS at the end.
fn pattern<const N: usize>(fcs: &[u8; 4]) -> [u8; N] {
    let mut f = [0; N];
    let (pieces, _) = f.as_chunks_mut::<12>();
    pieces.fill(*b"\xbe\xd7\x23\x47\x6b\x8f\xb3\x14\x5e\xfb\x35\x59");
    if let Some(end) = f.last_chunk_mut::<4>() {
        *end = *fcs;
    }
    f
}
