// A checksum of signed numbers, by which a program says in one number what it has of many.

ghost use Rattle.std.specs.Prelude.{◌≡◌, ◌<◌};
ghost use Rattle.whole.specs.Checksum.{added};

// The prime 2^31 - 1, below which a checksum stays.
pub const PRIME: u64 = 2147483647;

// The checksum of the numbers so far with one more: 31 times that so far and the number's weight,
// modulo the prime. The weight is twice the size, and one more below zero.
pub fn added(sum: u64, x: i64) -> u64
    requires { sum < 2147483647 }
    ensures value { result ≡ added sum x }
    ensures below { result < 2147483647 }
{
    let twice = 2 * (x.unsigned_abs() % PRIME);
    let weight = if x < 0 { twice + 1 } else { twice };
    (31 * sum + weight) % PRIME
}
