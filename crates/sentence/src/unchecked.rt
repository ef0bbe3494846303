// A refusal for a host in another language.
ghost use Rattle.std.specs.Prelude.{◌≡◌};
ghost use Rattle.sentence.specs.Refusals.{refusal_code, Near};

use super::Refusal;

// A refusal as one number: 2^63 plus 256 times its place plus its number.
pub fn refusal_code(r: Refusal) -> u64
    requires { Near r }
    ensures { result ≡ refusal_code r }
{
    9223372036854775808 + 256 * r.place as u64 + u64::from(r.reason.number())
}
