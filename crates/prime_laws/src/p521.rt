//! That P-521's p and n are primes.

ghost use Rattle.p521_field.specs.Field.{prime};
ghost use Rattle.p521_order.specs.Scalars.{order};
ghost use Rattle.prime_laws.specs.Primes.{IsPrime};

/// P-521's p is prime.
pub fn p521_is_prime()
    ensures { IsPrime prime }
{}

/// P-521's n, the order of its base point, is prime.
pub fn p521_order_is_prime()
    ensures { IsPrime order }
{}
