//! A rising list of numbers.

ghost use Rattle.std.specs.Prelude.{◌≡◌, ◌≤◌, MatchResult, length, vec_capacity};
ghost use Rattle.lists.specs.Rising.{IsAbsent, IsFound, IsRisingList, inserted, is_among, removed};

// Where the number stands, or else where it goes.
fn search(numbers: &[u64], number: u64) -> Result<usize, usize>
    requires { IsRisingList numbers.now }
    ensures { MatchResult result (IsFound number numbers.now) (IsAbsent number numbers.now) }
{
    numbers.binary_search(&number)
}

/// Whether the number is there.
pub fn has(numbers: &[u64], number: u64) -> bool
    requires { IsRisingList numbers.now }
    ensures { result ≡ is_among number numbers.now }
{
    search(numbers, number).is_ok()
}

/// Puts the number in, where it isn't there. Takes no memory.
pub fn put_in(numbers: &mut Vec<u64>, number: u64)
    requires rising { IsRisingList numbers.old.items }
    requires room { length (inserted number numbers.old.items) ≤ vec_capacity numbers.old }
    ensures items { numbers.new.items ≡ inserted number numbers.old.items }
    ensures room { vec_capacity numbers.old ≤ vec_capacity numbers.new }
{
    if let Err(place) = search(numbers, number) {
        let put = numbers.insert(place, number);
        if put.is_err() {
            unreachable!()
        }
    }
}

/// Takes the number out, and tells whether it was there.
pub fn take_out(numbers: &mut Vec<u64>, number: u64) -> bool
    requires { IsRisingList numbers.old.items }
    ensures there { result ≡ is_among number numbers.old.items }
    ensures items { numbers.new.items ≡ removed number numbers.old.items }
    ensures room { vec_capacity numbers.old ≤ vec_capacity numbers.new }
{
    match search(numbers, number) {
        Ok(place) => {
            numbers.remove(place);
            true
        }
        Err(_) => false,
    }
}
