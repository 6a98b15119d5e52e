// Texts with their CRC-32, as other programs' tests print it.
use tally::Tally;

// The check value that catalogues of CRCs give, in libgcrypt 1.10.1, tests/basic.c, and xz 5.4.1, tests/test_check.c; and crc_vec of DPDK
// 22.11, app/test/test_crc.c.
const CHECKS: [(&str, u32); 2] = [
    ("123456789", 0xCBF43926),
    ("0123456789abcdefghijABCDEFGHIJKL", 0xB491AAB4),
];

// RHash 1.4.6, librhash/test_lib.c, crc32_tests: all eight, the empty one first.
const RHASH: [(&str, u32); 8] = [
    ("", 0),
    ("a", 0xE8B7BE43),
    ("abc", 0x352441C2),
    ("message digest", 0x20159D7F),
    ("abcdefghijklmnopqrstuvwxyz", 0x4C2750BD),
    ("The quick brown fox jumps over the lazy dog", 0x414FA339),
    (
        "ABCDEFGHIJKLMNOPQRSTUVWXYZabcdefghijklmnopqrstuvwxyz0123456789",
        0x1FC2E6D2,
    ),
    (
        "12345678901234567890123456789012345678901234567890123456789012345678901234567890",
        0x7CA94A72,
    ),
];

// Each text with its value.
pub fn run(mut t: Tally) -> Tally {
    for (text, value) in CHECKS.iter().chain(RHASH.iter()) {
        t = t.with(fcs::fcs_of(text.as_bytes()) == *value);
    }
    t
}
