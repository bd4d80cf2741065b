// The program's arguments, as bytes: a path need not be text.
ghost use Rattle.std.specs.Prelude.{◌≤◌, length};

use std::env::{Env, FillError};

// Puts an argument at the start of a path and answers how many bytes it has: none where it is missing, or longer than the room.
pub fn argument_bytes(env: &impl Env, argument: usize, path: &mut [u8]) -> usize
    ensures { result ≤ length path.new }
{
    let filled = env.arg(argument, path);
    match filled {
        Ok(n) => n,
        Err(_) => 0,
    }
}

// Whether there is an argument of a number.
pub fn is_given(env: &impl Env, argument: usize) -> bool {
    let mut one = [0u8; 1];
    let filled = env.arg(argument, &mut one);
    match filled {
        Err(FillError::NotPresent) => false,
        _ => true,
    }
}
