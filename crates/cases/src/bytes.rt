// Memory, frames and the outgoing slice.

// The memory of a case.
pub type Memory = [u8; 8192];

// The first `size` bytes of the memory, to be lent alone.
// Tried: `&mut m[..size]` in the cases. The proof didn't close: how long `m` is afterwards stayed open.
pub fn lent(m: &mut Memory, size: usize) -> &mut [u8] {
    let size = size.min(m.len());
    &mut m[..size]
}

// Bytes that repeat at no small distance, so that a piece copied from or to a wrong place shows.
pub fn fill(bytes: &mut [u8], seed: u32) {
    let mut x = seed.wrapping_add(0x12345678);
    for b in bytes.iter_mut() {
        *b = (x >> 24) as u8;
        x = x.wrapping_add(0x9E3779B1);
    }
}

// A frame of `N` bytes to a destination: its last four are the FCS of what stands before, low byte first.
pub fn frame_to<const N: usize>(to: [u8; 6], seed: u32) -> [u8; N] {
    let mut f = [0; N];
    fill(&mut f, seed);
    for (place, b) in f.iter_mut().zip(to) {
        *place = b;
    }
    if let Some((data, end)) = f.split_last_chunk_mut::<4>() {
        *end = fcs::fcs_of(data).to_le_bytes();
    }
    f
}

// A frame of `N` bytes to the station address 02-60-8C-01-02-03.
pub fn frame<const N: usize>(seed: u32) -> [u8; N] {
    frame_to(*b"\x02\x60\x8c\x01\x02\x03", seed)
}

// An outgoing slice of `N` bytes, all EEh before, with these bytes and their FCS handed out.
pub fn handed_out<const N: usize>(data: &[u8]) -> [u8; N] {
    let mut out = [0xEE; N];
    let end = fcs::fcs_of(data).to_le_bytes();
    for (place, b) in out.iter_mut().zip(data.iter().chain(end.iter())) {
        *place = *b;
    }
    out
}

// Bytes are copied to a place; what would lie past the end is left out.
// Tried: `m[a..b].copy_from_slice(..)` in the cases. The proof didn't close: how long `m` is afterwards stayed open.
pub fn copy<const N: usize>(m: &mut [u8; N], at: usize, bytes: &[u8]) {
    for (place, b) in m.iter_mut().skip(at).zip(bytes) {
        *place = *b;
    }
}

// The word that says a byte count.
pub fn minus(count: u16) -> u16 {
    count.wrapping_neg()
}

// A descriptor's bytes: buffer address below 64 KiB, status, the word of the byte count, and a last word that tells whether it was written.
fn described(address: u16, status: u8, count: u16) -> [u8; 8] {
    let [a, b] = address.to_le_bytes();
    let [c, d] = count.to_le_bytes();
    [a, b, 0, status, c, d, 0xA5, 0x5A]
}

// A descriptor is put at a place of the memory, as the cases give it here and below.
pub fn descriptor(m: &mut Memory, at: usize, address: u16, status: u8, count: u16) {
    copy(m, at, &described(address, status, count));
}

// What is written in a descriptor: the status, and the last word.
pub fn ended(m: &mut Memory, at: usize, status: u8, last: u16) {
    copy(m, at.saturating_add(3), &[status]);
    copy(m, at.saturating_add(6), &last.to_le_bytes());
}

// A ring of `n` owned descriptors, each with `count` bytes, the buffers `stride` from one to the next.
pub fn ring(m: &mut Memory, base: usize, n: usize, first: u16, stride: u16, count: u16) {
    let (slots, _) = m.as_chunks_mut::<8>();
    let mut buffer = first;
    for slot in slots.iter_mut().skip(base / 8).take(n) {
        *slot = described(buffer, 0x80, minus(count));
        buffer = buffer.wrapping_add(stride);
    }
}
