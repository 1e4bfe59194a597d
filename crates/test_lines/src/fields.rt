// A field of a line, of a list that is read as text. No program takes it.

ghost use Rattle.std.specs.Prelude.{◌≡◌, ◌⊎◌, IfOk, IfErr};
ghost use Rattle.std.specs.IoError.{error_kind};
ghost use Rattle.std.specs.declared.io.ErrorKind.TheVariants.{InvalidData, OutOfMemory};
ghost use Rattle.test_lines.specs.Fields.{Holds};

use crate::{decode, unreadable};
use std::alloc::Global;
use std::io;

#[derive(Debug, Drop)]
pub enum Field {
    Number(u64),
    Bytes(Vec<u8>),
}

impl Field {
    // Reads bytes in hexadecimal behind an x, or else a decimal number. What is neither comes back in the error.
    pub fn parse(alloc: Global, text: &str) -> io::Result<Field>
        ensures value { IfOk result (λ field. Holds text.now field) }
        ensures error { IfErr result (λ e. (error_kind e ≡ InvalidData) ⊎ (error_kind e ≡ OutOfMemory)) }
    {
        match text.as_bytes() {
            [b'x', hex @ ..] => Ok(Field::Bytes(decode(alloc, hex)?)),
            _ => match text.parse::<u64>() {
                Ok(number) => Ok(Field::Number(number)),
                Err(_) => Err(unreadable(text)),
            },
        }
    }
}
