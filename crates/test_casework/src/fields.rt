// A line's fields, which stand between spaces, and the numbers in them.
ghost use Rattle.std.specs.Prelude.{◌≤◌, min, length};

// A slice, and nothing where there is no such slice.
pub fn within<T>(s: &[T], from: usize, to: usize) -> &[T] {
    s.get(from..to).unwrap_or(&[])
}

// The first byte, and 0 where there is none.
pub fn first(s: &[u8]) -> u8 {
    s.first().copied().unwrap_or(0)
}

// The item with a number, counted from 0, of those that a byte joins.
pub fn item(s: &[u8], k: usize, joint: u8) -> &[u8] {
    s.split(|b| *b == joint).nth(k).unwrap_or(&[])
}

// The field with a number, counted from 0.
pub fn field(line: &[u8], k: usize) -> &[u8] {
    item(line, k, b' ')
}

// The number that a field starts with.
pub fn number(s: &[u8]) -> u64 {
    let mut n: u64 = 0;
    for b in s {
        match char::from(*b).to_digit(10) {
            Some(d) if n <= 1000000000000000000 => n = n * 10 + u64::from(d),
            _ => break,
        }
    }
    n
}

// The number of a field, as a place; behind `~` it is counted down from the largest.
pub fn place(line: &[u8], k: usize) -> usize {
    match field(line, k) {
        [b'~', rest @ ..] => usize::MAX - number(rest) as usize,
        whole => number(whole) as usize,
    }
}

// The number of a field, as a byte, and 255 where it is more.
pub fn byte(line: &[u8], k: usize) -> u8 {
    u8::try_from(place(line, k)).unwrap_or(u8::MAX)
}

// The item with a number, counted from 0, of numbers that commas join.
pub fn listed(s: &[u8], k: usize) -> usize {
    number(item(s, k, b',')) as usize
}

// A number of 31 bits, and the largest for one that has more.
fn small(n: u64) -> i32 {
    i32::try_from(n).unwrap_or(i32::MAX)
}

// The number of 32 bits, with its sign, that a field spells.
pub fn signed(s: &[u8]) -> i32 {
    match s {
        [b'-', rest @ ..] => match number(rest) {
            0 => 0,
            n => !small(n - 1),
        },
        _ => small(number(s)),
    }
}
