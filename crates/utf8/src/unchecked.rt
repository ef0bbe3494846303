// Decoding where a character is known to stand, and encoding of what is known to be a scalar value: nothing is tested.
ghost use Rattle.std.specs.Prelude.{◌≡◌, true, ◌+◌, ◌*◌, ◌%◌, ◌≤◌, ◌<◌};
ghost use Rattle.utf8.specs.Utf8.{decode_at, is_char, scalar, encode, filled};
ghost use Rattle.utf8.specs.declared.Decoded.TheVariants.{Char};

use crate::behind;

// A character and how many bytes it takes.
#[derive(Clone, Copy)]
pub struct Found {
    pub value: u32,
    pub len: usize,
}

// The bytes of a scalar value, and 0 after them, since there is no heap; `len` counts them.
#[derive(Clone, Copy)]
pub struct Encoded {
    pub bytes: [u8; 4],
    pub len: usize,
}

// The character at a place where one stands.
pub fn char_at(s: &[u8], at: usize) -> Found
    requires { is_char (decode_at s.now at) ≡ true }
    ensures { decode_at s.now at ≡ Char result.value result.len }
{
    let a = s[at];
    if a <= 0x7F {
        return Found {
            value: u32::from(a),
            len: 1,
        };
    }
    if a <= 0xDF {
        return Found {
            value: behind(u32::from(a % 32), s[at + 1]),
            len: 2,
        };
    }
    if a <= 0xEF {
        return Found {
            value: behind(behind(u32::from(a % 16), s[at + 1]), s[at + 2]),
            len: 3,
        };
    }
    Found {
        value: behind(
            behind(behind(u32::from(a % 8), s[at + 1]), s[at + 2]),
            s[at + 3],
        ),
        len: 4,
    }
}

// The bytes of a number up to 10FFFF, be it a surrogate.
fn bytes_of(v: u32) -> Encoded
    requires { v ≤ 0x10FFFF }
    ensures { result ≡ filled (encode v) }
{
    if v <= 0x7F {
        return Encoded {
            bytes: [v as u8, 0, 0, 0],
            len: 1,
        };
    }
    let last = (0x80 + v % 64) as u8;
    if v <= 0x7FF {
        return Encoded {
            bytes: [(0xC0 + v / 64) as u8, last, 0, 0],
            len: 2,
        };
    }
    let third = (0x80 + v / 64 % 64) as u8;
    if v <= 0xFFFF {
        return Encoded {
            bytes: [(0xE0 + v / 4096) as u8, third, last, 0],
            len: 3,
        };
    }
    let second = (0x80 + v / 4096 % 64) as u8;
    Encoded {
        bytes: [(0xF0 + v / 262144) as u8, second, third, last],
        len: 4,
    }
}

// The bytes of a scalar value.
pub fn encode(v: u32) -> Encoded
    requires { scalar v ≡ true }
    ensures { result ≡ filled (encode v) }
{
    bytes_of(v)
}
