//! Text of a file, made safe to print in a hint.
ghost use Rattle.std.specs.Prelude.{None};

use std::fmt;

// The greatest number of bytes printed.
const MAX_PRINTED: usize = 40;

/// A token of a file. Its printed text is short, and has no byte that a terminal might interpret.
#[derive(Clone, Copy, Debug, PartialEq, Eq)]
pub struct Quoted<'a>(pub &'a [u8]);

impl fmt::Display for Quoted<'_> {
    // No clause covers the text.
    ghost output = { λ _. None };

    fn fmt<W: fmt::Write>(&self, f: &mut fmt::Formatter<W>) -> fmt::Result {
        if self.0.is_empty() {
            return f.write_str("empty");
        }
        for byte in self.0.iter().take(MAX_PRINTED) {
            let shown = if byte.is_ascii_graphic() { *byte } else { b'?' };
            f.write_char(char::from(shown))?;
        }
        if self.0.len() > MAX_PRINTED {
            f.write_str("..")?;
        }
        Ok(())
    }
}
