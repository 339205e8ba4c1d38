//! A reader that says when its bytes are awaited.
ghost use Rattle.std.specs.Prelude.{◌≡◌};

use std::io::{self, Eprint, Read};

/// Reads from another reader. Before the first read it writes on standard error that the file is awaited, if it is set to; if
/// that fails, reading continues.
#[derive(Drop)]
pub(crate) struct Awaited<'a, R, T> {
    reader: R,
    tells: bool,
    rt: &'a T,
}

impl<'a, R: Read, T: Eprint> Awaited<'a, R, T> {
    /// A reader that has read nothing yet.
    pub(crate) fn new(reader: R, tells: bool, rt: &'a T) -> Awaited<'a, R, T>
        ensures { result.reader ≡ reader }
    {
        Awaited { reader, tells, rt }
    }
}

impl<R: Read, T: Eprint> Read for Awaited<'_, R, T> {
    ghost remaining = { λ awaited. R.remaining awaited.reader };

    fn read(&mut self, buf: &mut [u8]) -> io::Result<usize> {
        if self.tells {
            self.tells = false;
            let _ = self.rt.eprintln(
                "cvrp: hint: the file is awaited on standard input, as in cvrp < FILE; Ctrl-D ends it",
            );
        }
        self.reader.read(buf)
    }
}
