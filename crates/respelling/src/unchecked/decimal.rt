// A number in decimal.
ghost use Rattle.std.specs.Prelude.{◌+◌, ◌≤◌, [], ◌∷◌, ◌++◌, length};
ghost use Rattle.respelling.specs.Puts.{Puts};
ghost use Rattle.respelling.specs.Decimal.{decimal};

// Puts the digits of a number into a slice behind a place, and answers where they end. Each is stored where it stays: a formatter's would be copied.
fn put_decimal(n: usize, out: &mut [u8], at: usize) -> usize
    requires { at + length (decimal n) ≤ length out.old }
    ensures { Puts (decimal n) out.old at result out.new }
{
    if n < 10 {
        out[at] = b'0' + n as u8;
        return at + 1;
    }
    let k = put_decimal(n / 10, out, at);
    out[k] = b'0' + (n % 10) as u8;
    k + 1
}

// Puts the digits of a number and then a byte into a slice behind a place, and answers where they end.
pub fn put_number(n: usize, b: u8, out: &mut [u8], at: usize) -> usize
    requires { at + 21 ≤ length out.old }
    ensures puts { Puts (decimal n ++ (b ∷ [])) out.old at result out.new }
    ensures upper_bound { result ≤ at + 21 }
{
    let k = put_decimal(n, out, at);
    out[k] = b;
    k + 1
}
