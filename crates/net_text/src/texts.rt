//! Numbers and octets as text, written behind what a buffer has.

ghost use Rattle.std.specs.Prelude.{◌≡◌, ◌+◌, ◌*◌, ◌<◌, ◌≤◌, ◌∷◌, [], ◌++◌, length, take, drop, decimal, codes, OnOk, OnErr};
ghost use Rattle.hex.specs.Hex.{encode_lower};
ghost use Rattle.net_text.specs.Printing.{hex_or_dash, address_text};

use hex::encode_to_slice;
use itoa::Buffer;
use std::alloc::AllocError;

// The most octets that may change where an octet is written as a number: those of a row.
const OCTET_ROOM: usize = 4;

// The most octets that may change where an address is written: four numbers, a dot between them, and
// the place behind the last.
const ADDRESS_ROOM: usize = 16;

// The rows of the octets, of four places each: the decimal digits, a dot, and blanks behind it.
const OCTET_ROWS: &[u8; 1024] = b"\
    0.  1.  2.  3.  4.  5.  6.  7.  8.  9.  10. 11. 12. 13. 14. 15. 16. 17. 18. 19. 20. 21. 22. 23. \
    24. 25. 26. 27. 28. 29. 30. 31. 32. 33. 34. 35. 36. 37. 38. 39. 40. 41. 42. 43. 44. 45. 46. 47. \
    48. 49. 50. 51. 52. 53. 54. 55. 56. 57. 58. 59. 60. 61. 62. 63. 64. 65. 66. 67. 68. 69. 70. 71. \
    72. 73. 74. 75. 76. 77. 78. 79. 80. 81. 82. 83. 84. 85. 86. 87. 88. 89. 90. 91. 92. 93. 94. 95. \
    96. 97. 98. 99. 100.101.102.103.104.105.106.107.108.109.110.111.112.113.114.115.116.117.118.119.\
    120.121.122.123.124.125.126.127.128.129.130.131.132.133.134.135.136.137.138.139.140.141.142.143.\
    144.145.146.147.148.149.150.151.152.153.154.155.156.157.158.159.160.161.162.163.164.165.166.167.\
    168.169.170.171.172.173.174.175.176.177.178.179.180.181.182.183.184.185.186.187.188.189.190.191.\
    192.193.194.195.196.197.198.199.200.201.202.203.204.205.206.207.208.209.210.211.212.213.214.215.\
    216.217.218.219.220.221.222.223.224.225.226.227.228.229.230.231.232.233.234.235.236.237.238.239.\
    240.241.242.243.244.245.246.247.248.249.250.251.252.253.254.255.";

// How many places of its row the digits of each octet and the dot have.
const OCTET_SPANS: &[u8; 256] = b"\
    \x02\x02\x02\x02\x02\x02\x02\x02\x02\x02\x03\x03\x03\x03\x03\x03\x03\x03\x03\x03\x03\x03\x03\x03\
    \x03\x03\x03\x03\x03\x03\x03\x03\x03\x03\x03\x03\x03\x03\x03\x03\x03\x03\x03\x03\x03\x03\x03\x03\
    \x03\x03\x03\x03\x03\x03\x03\x03\x03\x03\x03\x03\x03\x03\x03\x03\x03\x03\x03\x03\x03\x03\x03\x03\
    \x03\x03\x03\x03\x03\x03\x03\x03\x03\x03\x03\x03\x03\x03\x03\x03\x03\x03\x03\x03\x03\x03\x03\x03\
    \x03\x03\x03\x03\x04\x04\x04\x04\x04\x04\x04\x04\x04\x04\x04\x04\x04\x04\x04\x04\x04\x04\x04\x04\
    \x04\x04\x04\x04\x04\x04\x04\x04\x04\x04\x04\x04\x04\x04\x04\x04\x04\x04\x04\x04\x04\x04\x04\x04\
    \x04\x04\x04\x04\x04\x04\x04\x04\x04\x04\x04\x04\x04\x04\x04\x04\x04\x04\x04\x04\x04\x04\x04\x04\
    \x04\x04\x04\x04\x04\x04\x04\x04\x04\x04\x04\x04\x04\x04\x04\x04\x04\x04\x04\x04\x04\x04\x04\x04\
    \x04\x04\x04\x04\x04\x04\x04\x04\x04\x04\x04\x04\x04\x04\x04\x04\x04\x04\x04\x04\x04\x04\x04\x04\
    \x04\x04\x04\x04\x04\x04\x04\x04\x04\x04\x04\x04\x04\x04\x04\x04\x04\x04\x04\x04\x04\x04\x04\x04\
    \x04\x04\x04\x04\x04\x04\x04\x04\x04\x04\x04\x04\x04\x04\x04\x04";

/// Writes an octet at a place, and answers the place behind it.
pub fn write_mark(text: &mut [u8], at: usize, mark: u8) -> usize
    requires { at < length text.old }
    ensures end { result ≡ at + 1 }
    ensures text { take result text.new ≡ take at text.old ++ mark ∷ [] }
{
    text[at] = mark;
    at + 1
}

/// Writes octets at a place as they are, and answers the place behind them.
#[inline(always)]
pub fn write_text(text: &mut [u8], at: usize, octets: &[u8]) -> usize
    requires { at + length octets.now ≤ length text.old }
    ensures end { result ≡ at + length octets.now }
    ensures text { take result text.new ≡ take at text.old ++ octets.now }
{
    let end = at + octets.len();
    text[at..end].copy_from_slice(octets);
    end
}

// The four octets at a place.
fn four_at(octets: &[u8], at: usize) -> [u8; 4]
    requires { at + 4 ≤ length octets.now }
    ensures { result ≡ take 4 (drop at octets.now) }
{
    [octets[at], octets[at + 1], octets[at + 2], octets[at + 3]]
}

/// The row of an octet: its digits in front, a dot behind them, and blanks.
pub fn octet_row(octet: u8) -> [u8; 4]
    ensures { take (length (decimal octet) + 1) result ≡ decimal octet ++ codes "." }
{
    four_at(OCTET_ROWS, 4 * octet as usize)
}

// How many places of its row the digits of an octet and the dot have.
fn octet_span(octet: u8) -> usize
    ensures span { result ≡ length (decimal octet) + 1 }
    ensures few { result ≤ 4 }
{
    OCTET_SPANS[octet as usize] as usize
}

// Writes an octet as a number at a place, a dot behind it, and answers the place behind the dot. Four octets may
// change: a row is written whole.
fn write_dotted(text: &mut [u8], at: usize, octet: u8) -> usize
    requires { at + 4 ≤ length text.old }
    ensures end { result ≡ at + (length (decimal octet) + 1) }
    ensures few { result ≤ at + 4 }
    ensures text { take result text.new ≡ take at text.old ++ (decimal octet ++ codes ".") }
{
    write_text(text, at, &octet_row(octet));
    at + octet_span(octet)
}

/// Writes an octet as a number at a place, and answers the place behind it. Four octets may change.
pub fn write_octet(text: &mut [u8], at: usize, octet: u8) -> usize
    requires { at + 4 ≤ length text.old }
    ensures end { result ≤ at + 3 }
    ensures text { take result text.new ≡ take at text.old ++ decimal octet }
{
    write_dotted(text, at, octet) - 1
}

/// Writes an address at a place, as its four octets with dots between them, and answers the place
/// behind it. Sixteen octets may change.
#[tactic(auto, unfolding(crate::specs::Printing::address_text))]
pub fn write_address(text: &mut [u8], at: usize, address: u32) -> usize
    requires { at + 16 ≤ length text.old }
    ensures end { result ≤ at + 15 }
    ensures text { take result text.new ≡ take at text.old ++ address_text address }
{
    let at = write_dotted(text, at, (address / 0x0100_0000) as u8);
    let at = write_dotted(text, at, (address / 0x0001_0000 % 256) as u8);
    let at = write_dotted(text, at, (address / 0x0100 % 256) as u8);
    write_octet(text, at, (address % 256) as u8)
}

// Writes octets in hex at a place, two digits each, and answers the place behind them.
fn write_hex(text: &mut [u8], at: usize, octets: &[u8]) -> usize
    requires { at + 2 * length octets.now ≤ length text.old }
    ensures end { result ≡ at + 2 * length octets.now }
    ensures text { take result text.new ≡ take at text.old ++ encode_lower octets.now }
{
    let end = at + 2 * octets.len();
    if encode_to_slice(octets, &mut text[at..end]).is_err() {
        unreachable!();
    }
    end
}

/// Writes octets in hex at a place, or a dash if there are none, and answers the place behind them.
pub fn write_hex_or_dash(text: &mut [u8], at: usize, octets: &[u8]) -> usize
    requires { at + (2 * length octets.now + 1) ≤ length text.old }
    ensures end { result ≤ at + (2 * length octets.now + 1) }
    ensures text { take result text.new ≡ take at text.old ++ hex_or_dash octets.now }
{
    if octets.is_empty() {
        write_mark(text, at, b'-')
    } else {
        write_hex(text, at, octets)
    }
}

/// Appends an octet as a number in decimal digits.
pub fn put_octet(out: &mut Vec<u8>, octet: u8) -> Result<(), AllocError>
    ensures ok { OnOk result (out.new.items ≡ out.old.items ++ decimal octet) }
    ensures err { OnErr result (out.new.items ≡ out.old.items) }
{
    let at = out.len();
    out.resize(at + OCTET_ROOM, 0)?;
    let end = write_octet(out.as_mut_slice(), at, octet);
    out.truncate(end);
    Ok(())
}

/// Appends an address.
pub fn put_address(out: &mut Vec<u8>, address: u32) -> Result<(), AllocError>
    ensures ok { OnOk result (out.new.items ≡ out.old.items ++ address_text address) }
    ensures err { OnErr result (out.new.items ≡ out.old.items) }
{
    let at = out.len();
    out.resize(at + ADDRESS_ROOM, 0)?;
    let end = write_address(out.as_mut_slice(), at, address);
    out.truncate(end);
    Ok(())
}

/// Appends a number of octets in decimal digits.
pub fn put_len(out: &mut Vec<u8>, len: usize) -> Result<(), AllocError>
    ensures ok { OnOk result (out.new.items ≡ out.old.items ++ decimal len) }
    ensures err { OnErr result (out.new.items ≡ out.old.items) }
{
    let mut buffer = Buffer::new();
    out.extend_from_slice(buffer.format(len).as_bytes())
}

/// Appends octets as two lower-case hex digits each.
pub fn put_hex(out: &mut Vec<u8>, octets: &[u8]) -> Result<(), AllocError>
    ensures ok { OnOk result (out.new.items ≡ out.old.items ++ encode_lower octets.now) }
    ensures err { OnErr result (out.new.items ≡ out.old.items) }
{
    let start = out.len();
    let room = 2 * octets.len();
    out.resize(start.saturating_add(room), 0)?;
    let (_, fresh) = out.as_mut_slice().split_at_mut(start);
    if encode_to_slice(octets, fresh).is_err() {
        unreachable!();
    }
    Ok(())
}

/// Appends octets in hex, or a dash if there are none.
pub fn put_hex_or_dash(out: &mut Vec<u8>, octets: &[u8]) -> Result<(), AllocError>
    ensures ok { OnOk result (out.new.items ≡ out.old.items ++ hex_or_dash octets.now) }
    ensures err { OnErr result (out.new.items ≡ out.old.items) }
{
    if octets.is_empty() {
        out.extend_from_slice(b"-")
    } else {
        put_hex(out, octets)
    }
}
