// CRC-32 (IEEE), by a table of nibbles, eight bytes a turn.
//
// `specs/Crc.antt` says what the CRC is, bit by bit. The shift is linear for xor, so a number is shifted nibble by nibble, and
// what a nibble becomes stands in a table. `proofs/On.antt` shows that the CRC goes on from one part to the next.
#![tactic(auto)]

ghost use Rattle.std.specs.Prelude.{◌≡◌, ◌+◌, ◌*◌, ◌<◌, ◌≤◌, length, take, drop};
ghost use Rattle.crc32.specs.Crc.{shift_bits, shift_byte, crc_over, crc_on, crc_of};
ghost use Rattle.crc32.specs.Helpers.{Ruled, little};

// Sixteen rows of sixteen: in row j at k stands the nibble k, shifted by 4 * (j + 1) bits.
// A function that names a constant builds it anew at each call, so one function names it and lends it to the others.
const TABLE: [u32; 256] = [
    0x0000_0000,
    0x1DB7_1064,
    0x3B6E_20C8,
    0x26D9_30AC,
    0x76DC_4190,
    0x6B6B_51F4,
    0x4DB2_6158,
    0x5005_713C,
    0xEDB8_8320,
    0xF00F_9344,
    0xD6D6_A3E8,
    0xCB61_B38C,
    0x9B64_C2B0,
    0x86D3_D2D4,
    0xA00A_E278,
    0xBDBD_F21C,
    0x0000_0000,
    0x7707_3096,
    0xEE0E_612C,
    0x9909_51BA,
    0x076D_C419,
    0x706A_F48F,
    0xE963_A535,
    0x9E64_95A3,
    0x0EDB_8832,
    0x79DC_B8A4,
    0xE0D5_E91E,
    0x97D2_D988,
    0x09B6_4C2B,
    0x7EB1_7CBD,
    0xE7B8_2D07,
    0x90BF_1D91,
    0x0000_0000,
    0x4AC2_1251,
    0x9584_24A2,
    0xDF46_36F3,
    0xF079_4F05,
    0xBABB_5D54,
    0x65FD_6BA7,
    0x2F3F_79F6,
    0x3B83_984B,
    0x7141_8A1A,
    0xAE07_BCE9,
    0xE4C5_AEB8,
    0xCBFA_D74E,
    0x8138_C51F,
    0x5E7E_F3EC,
    0x14BC_E1BD,
    0x0000_0000,
    0x191B_3141,
    0x3236_6282,
    0x2B2D_53C3,
    0x646C_C504,
    0x7D77_F445,
    0x565A_A786,
    0x4F41_96C7,
    0xC8D9_8A08,
    0xD1C2_BB49,
    0xFAEF_E88A,
    0xE3F4_D9CB,
    0xACB5_4F0C,
    0xB5AE_7E4D,
    0x9E83_2D8E,
    0x8798_1CCF,
    0x0000_0000,
    0x1C26_A370,
    0x384D_46E0,
    0x246B_E590,
    0x709A_8DC0,
    0x6CBC_2EB0,
    0x48D7_CB20,
    0x54F1_6850,
    0xE135_1B80,
    0xFD13_B8F0,
    0xD978_5D60,
    0xC55E_FE10,
    0x91AF_9640,
    0x8D89_3530,
    0xA9E2_D0A0,
    0xB5C4_73D0,
    0x0000_0000,
    0x01C2_6A37,
    0x0384_D46E,
    0x0246_BE59,
    0x0709_A8DC,
    0x06CB_C2EB,
    0x048D_7CB2,
    0x054F_1685,
    0x0E13_51B8,
    0x0FD1_3B8F,
    0x0D97_85D6,
    0x0C55_EFE1,
    0x091A_F964,
    0x08D8_9353,
    0x0A9E_2D0A,
    0x0B5C_473D,
    0x0000_0000,
    0x5019_579F,
    0xA032_AF3E,
    0xF02B_F8A1,
    0x9B14_583D,
    0xCB0D_0FA2,
    0x3B26_F703,
    0x6B3F_A09C,
    0xED59_B63B,
    0xBD40_E1A4,
    0x4D6B_1905,
    0x1D72_4E9A,
    0x764D_EE06,
    0x2654_B999,
    0xD67F_4138,
    0x8666_16A7,
    0x0000_0000,
    0xB8BC_6765,
    0xAA09_C88B,
    0x12B5_AFEE,
    0x8F62_9757,
    0x37DE_F032,
    0x256B_5FDC,
    0x9DD7_38B9,
    0xC5B4_28EF,
    0x7D08_4F8A,
    0x6FBD_E064,
    0xD701_8701,
    0x4AD6_BFB8,
    0xF26A_D8DD,
    0xE0DF_7733,
    0x5863_1056,
    0x0000_0000,
    0x60E0_9782,
    0xC1C1_2F04,
    0xA121_B886,
    0x58F3_5849,
    0x3813_CFCB,
    0x9932_774D,
    0xF9D2_E0CF,
    0xB1E6_B092,
    0xD106_2710,
    0x7027_9F96,
    0x10C7_0814,
    0xE915_E8DB,
    0x89F5_7F59,
    0x28D4_C7DF,
    0x4834_505D,
    0x0000_0000,
    0x3D60_29B0,
    0x7AC0_5360,
    0x47A0_7AD0,
    0xF580_A6C0,
    0xC8E0_8F70,
    0x8F40_F5A0,
    0xB220_DC10,
    0x3070_4BC1,
    0x0D10_6271,
    0x4AB0_18A1,
    0x77D0_3111,
    0xC5F0_ED01,
    0xF890_C4B1,
    0xBF30_BE61,
    0x8250_97D1,
    0x0000_0000,
    0x03D6_029B,
    0x07AC_0536,
    0x047A_07AD,
    0x0F58_0A6C,
    0x0C8E_08F7,
    0x08F4_0F5A,
    0x0B22_0DC1,
    0x1EB0_14D8,
    0x1D66_1643,
    0x191C_11EE,
    0x1ACA_1375,
    0x11E8_1EB4,
    0x123E_1C2F,
    0x1644_1B82,
    0x1592_1919,
    0x0000_0000,
    0xCB5C_D3A5,
    0x4DC8_A10B,
    0x8694_72AE,
    0x9B91_4216,
    0x50CD_91B3,
    0xD659_E31D,
    0x1D05_30B8,
    0xEC53_826D,
    0x270F_51C8,
    0xA19B_2366,
    0x6AC7_F0C3,
    0x77C2_C07B,
    0xBC9E_13DE,
    0x3A0A_6170,
    0xF156_B2D5,
    0x0000_0000,
    0x67DE_9CCE,
    0xCFBD_399C,
    0xA863_A552,
    0x440B_7579,
    0x23D5_E9B7,
    0x8BB6_4CE5,
    0xEC68_D02B,
    0x8816_EAF2,
    0xEFC8_763C,
    0x47AB_D36E,
    0x2075_4FA0,
    0xCC1D_9F8B,
    0xABC3_0345,
    0x03A0_A617,
    0x647E_3AD9,
    0x0000_0000,
    0xA677_0BB4,
    0x979F_1129,
    0x31E8_1A9D,
    0xF44F_2413,
    0x5238_2FA7,
    0x63D0_353A,
    0xC5A7_3E8E,
    0x33EF_4E67,
    0x9598_45D3,
    0xA470_5F4E,
    0x0207_54FA,
    0xC7A0_6A74,
    0x61D7_61C0,
    0x503F_7B5D,
    0xF648_70E9,
    0x0000_0000,
    0x7CBB_312B,
    0xF976_6256,
    0x85CD_537D,
    0x299D_C2ED,
    0x5526_F3C6,
    0xD0EB_A0BB,
    0xAC50_9190,
    0x533B_85DA,
    0x2F80_B4F1,
    0xAA4D_E78C,
    0xD6F6_D6A7,
    0x7AA6_4737,
    0x061D_761C,
    0x83D0_2561,
    0xFF6B_144A,
    0x0000_0000,
    0xCCAA_009E,
    0x4225_077D,
    0x8E8F_07E3,
    0x844A_0EFA,
    0x48E0_0E64,
    0xC66F_0987,
    0x0AC5_0919,
    0xD3E5_1BB5,
    0x1F4F_1B2B,
    0x91C0_1CC8,
    0x5D6A_1C56,
    0x57AF_154F,
    0x9B05_15D1,
    0x158A_1232,
    0xD920_12AC,
];

// The nibble k, shifted by 4 * (row + 1) bits.
fn nibble(t: &[u32; 256], row: usize, k: u32) -> u32
    requires ruled { Ruled t.now }
    requires row_bound { (row < 16) × (k < 16) }
    ensures { result ≡ shift_bits (4 * (row + 1)) k }
{
    t[16 * row + k as usize]
}

// A byte, shifted in the same way: its high nibble stands one row lower. The three functions from here on differ in a number alone, but each
// calls the one before it, and a const argument that is half of another cannot be written.
fn byte(t: &[u32; 256], row: usize, v: u32) -> u32
    requires ruled { Ruled t.now }
    requires le_row { (1 ≤ row) × (row < 16) × (v < 256) }
    ensures { result ≡ shift_bits (4 * (row + 1)) v }
{
    nibble(t, row, v % 16) ^ nibble(t, row - 1, v / 16)
}

// Two bytes, shifted in the same way.
fn pair(t: &[u32; 256], row: usize, v: u32) -> u32
    requires ruled { Ruled t.now }
    requires le_row { (3 ≤ row) × (row < 16) × (v < 65536) }
    ensures { result ≡ shift_bits (4 * (row + 1)) v }
{
    byte(t, row, v % 256) ^ byte(t, row - 2, v / 256)
}

// Four bytes, shifted in the same way.
fn word(t: &[u32; 256], row: usize, v: u32) -> u32
    requires ruled { Ruled t.now }
    requires le_row { (7 ≤ row) × (row < 16) }
    ensures { result ≡ shift_bits (4 * (row + 1)) v }
{
    pair(t, row, v % 65536) ^ pair(t, row - 4, v / 65536)
}

// The four bytes at a place as a number, the first the lowest.
fn word_at(s: &[u8], at: usize) -> u32
    requires { at + 4 ≤ length s.now }
    ensures { result ≡ little (take 4 (drop at s.now)) }
{
    u32::from_le_bytes([s[at], s[at + 1], s[at + 2], s[at + 3]])
}

// One byte more.
fn one(t: &[u32; 256], c: u32, b: u8) -> u32
    requires { Ruled t.now }
    ensures { result ≡ shift_byte c b }
{
    let x = c ^ (b as u32);
    byte(t, 1, x % 256) ^ (x / 256)
}

// Eight bytes more: the last four are shifted by 32 bits, and the first four, with what came before, by 64.
// The last four stand first, since they wait for nothing of the turn before.
fn eight(t: &[u32; 256], c: u32, s: &[u8], at: usize) -> u32
    requires ruled { Ruled t.now }
    requires at_in_bounds { at + 8 ≤ length s.now }
    ensures { result ≡ crc_over c (take 8 (drop at s.now)) }
{
    word(t, 7, word_at(s, at + 4)) ^ word(t, 15, c ^ word_at(s, at))
}

// The first n eights of s. By places, as `eight` reads from the lent slice itself.
fn eights(t: &[u32; 256], first: u32, s: &[u8], n: usize) -> u32
    requires ruled { Ruled t.now }
    requires n_in_bounds { 8 * n ≤ length s.now }
    ensures { result ≡ crc_over first (take (8 * n) s.now) }
{
    let mut c = first;
    for k in 0..n {
        c = eight(t, c, s, 8 * k);
    }
    c
}

// The bytes of s, one by one.
fn ones(t: &[u32; 256], first: u32, s: &[u8]) -> u32
    requires { Ruled t.now }
    ensures { result ≡ crc_over first s.now }
{
    let mut c = first;
    for b in s {
        c = one(t, c, *b);
    }
    c
}

// All of s: the eights, and then what is left.
fn over(t: &[u32; 256], first: u32, s: &[u8]) -> u32
    requires { Ruled t.now }
    ensures { result ≡ crc_over first s.now }
{
    let n = s.len() / 8;
    let c = eights(t, first, s, n);
    ones(t, c, &s[8 * n..])
}

// The CRC of s, gone on from `first`, the CRC of an earlier part.
pub fn crc32_on(first: u32, s: &[u8]) -> u32
    ensures { result ≡ crc_on first s.now }
{
    over(&TABLE, first ^ 0xFFFF_FFFF, s) ^ 0xFFFF_FFFF
}

// The CRC of s.
pub fn crc32(s: &[u8]) -> u32
    ensures { result ≡ crc_of s.now }
{
    crc32_on(0, s)
}
