// Group addresses with the filter bit that they select.
use tally::Tally;

// What drivers say, then the table of the LANCE.
pub fn run(t: Tally) -> Tally {
    let t = broadcast(t);
    let t = pause(t);
    lance(t)
}

// Linux 6.1, drivers/net/ethernet/sfc/siena/farch.c: "ether_crc_le() of the broadcast address is 0xbe2612ff". That is the whole register,
// whose top six bits are 47.
fn broadcast(t: Tally) -> Tally {
    let all = b"\xff\xff\xff\xff\xff\xff";
    t.with(fcs::register_of(all) == 0xBE2612FF)
        .with(fcs::hash_of(all) == 47)
}

// Linux 6.1, drivers/net/ethernet/dlink/dl2k.c: "DA: 01-80-C2-00-00-01. Hash index=0x39". That card takes the same six bits in reverse order,
// so ours is 27h.
fn pause(t: Tally) -> Tally {
    t.with(fcs::hash_of(b"\x01\x80\xc2\x00\x00\x01") == 0x27)
}

// The table "Mapping of Logical Address to Filter Mask" of AMD's Am7990 (LANCE) data sheet, as we remember it, for no copy was at hand: for
// each of the 64 filter bits the first byte of an address that selects it; the other five bytes are zero.
const FIRST: [u8; 64] =
    *b"\x85\xa5\xe5\xc5\x45\x65\x25\x05\x2b\x0b\x4b\x6b\xeb\xcb\x8b\xbb\xc7\xe7\xa7\x87\x07\x27\x67\x47\x69\x49\x09\x29\xa9\x89\xc9\xe9\x21\x01\x41\x71\xe1\xc1\x81\xa1\x8f\xbf\xef\xcf\x4f\x6f\x2f\x0f\x63\x43\x03\x23\xa3\x83\xc3\xe3\xcd\xed\xad\x8d\x0d\x2d\x6d\x4d";

// Each row of the table.
fn lance(mut t: Tally) -> Tally {
    for (bit, first) in (0..).zip(FIRST) {
        t = t.with(fcs::hash_of(&[first, 0, 0, 0, 0, 0]) == bit);
    }
    t
}
