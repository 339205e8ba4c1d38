//! A line's fault with the line's number.
ghost use Rattle.std.specs.Prelude.{◌≡◌};
ghost use Rattle.vrp_text.specs.Section.{at_line};

use crate::error::TextError;
use crate::lexer::FileLineFault;

/// The fault on the line of this number.
pub(crate) fn at_line(line: u32, fault: FileLineFault) -> TextError
    ensures { result ≡ at_line line fault }
{
    match fault {
        FileLineFault::DataOutside => TextError::DataOutside(line),
        FileLineFault::UnknownKeyword => TextError::UnknownKeyword(line),
        FileLineFault::Repeated => TextError::Repeated(line),
        FileLineFault::BadValue => TextError::BadValue(line),
        FileLineFault::Unsupported => TextError::Unsupported(line),
        FileLineFault::BadNumber => TextError::BadNumber(line),
        FileLineFault::NotWhole => TextError::NotWhole(line),
    }
}
