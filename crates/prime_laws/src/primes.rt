//! What holds of each prime.

ghost use Rattle.std.specs.Prelude.{◌≡◌, ◌<◌, ◌-◌, ◌*◌, ◌%◌, ◌^◌, ℕ};
ghost use Rattle.prime_laws.specs.Primes.{HasInverse, IsPrime};

/// 1 is no prime, and no product of two numbers that are more than 1 is one.
pub fn what_is_no_prime()
    ensures one { IsPrime 1 → ⊥ }
    ensures product { (a b : ℕ) → 1 < a → 1 < b → IsPrime (a * b) → ⊥ }
{}

/// Modulo a prime n each number from 1 to n - 1 has an inverse.
pub fn primes_give_inverses()
    ensures { (n x : ℕ) → IsPrime n → 0 < x → x < n → HasInverse n x }
{}

/// Fermat's theorem: x to the n is x modulo a prime n. So x to the n - 2 is the inverse of x.
pub fn powers_come_round()
    ensures same { (n x : ℕ) → IsPrime n → x ^ n % n ≡ x % n }
    ensures inverse { (n x : ℕ) → IsPrime n → 0 < x → x < n → (x * x ^ (n - 2)) % n ≡ 1 }
{}
