//! Signs once with a seed from standard input, with or without clearing what that leaves, and waits
//! for a byte, so that another process can look for pieces of the seed in its memory.
#![tactic(auto)]

ghost use Rattle.std.specs.Prelude.{◌≡◌, length};

use ed25519::{BaseTable, sign_checked, sign_erased};
use std::io::Read;
use std::{env, io};

const MESSAGE: [u8; 40] = *b"a message that is signed, of forty bytes";

fn main(rt: HostRuntime) -> io::Result<()> {
    let mut args = env::args(&rt)?;
    args.next();
    let erases = match args.next() {
        Some(word) => word.as_str() == "erased",
        None => false,
    };
    let table = BaseTable::new(rt.alloc())?;
    let mut input = rt.stdin();
    let mut seed = Vec::from_slice(rt.alloc(), &[0u8; 32])?;
    let mut public = [0u8; 32];
    let mut word = [0u8; 1];
    input.read_exact(seed.as_mut_slice())?;
    input.read_exact(&mut public)?;
    if seed.len() != 32 {
        return Err(io::ErrorKind::InvalidInput.into());
    }
    let signature = if erases {
        sign_erased(&table, seed.as_slice(), &public, &MESSAGE)
    } else {
        sign_plainly(&table, seed.as_slice(), &public)
    };
    seed.as_mut_slice().fill(0);
    // Nothing else runs before the other process has looked.
    input.read_exact(&mut word)?;
    input.read_exact(seed.as_mut_slice())?;
    match signature {
        Some(signature) => println!(rt; "{}", hex::encode(rt.alloc(), &signature)?),
        None => println!(rt; "refused"),
    }
}

/// Signs, and leaves what that leaves.
#[inline(never)]
fn sign_plainly(table: &BaseTable, seed: &[u8], public: &[u8; 32]) -> Option<[u8; 64]>
    requires { length seed.now ≡ 32 }
{
    let mut key = [0u8; 32];
    key.copy_from_slice(seed);
    sign_checked(table, &key, public, &MESSAGE)
}
