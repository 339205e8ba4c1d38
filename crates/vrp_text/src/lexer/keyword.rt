//! Keywords.
ghost use Rattle.std.specs.Prelude.{◌≡◌};
ghost use Rattle.std.specs.Map.{lookup};
ghost use Rattle.std.specs.Str.{bytes_eq};
ghost use Rattle.vrp_text.specs.Keyword.{keyword_of};
ghost use Rattle.vrp_text.specs.Inner.WordTable.{words_of};

use crate::lexer::key::Key;

/// The meaning of a keyword.
#[derive(Clone, Copy, Debug, PartialEq, Eq)]
pub enum Keyword {
    /// States something, once.
    Key(Key),
    /// Is ignored, with its value.
    Remark,
    /// Begins data that are skipped.
    Display,
    /// Belongs to the standard, but is not supported.
    Unsupported,
    /// Ends the file.
    End,
}

const KEYWORDS: [(&[u8], Keyword); 19] = [
    (b"TYPE", Keyword::Key(Key::Problem)),
    (b"DIMENSION", Keyword::Key(Key::Dimension)),
    (b"CAPACITY", Keyword::Key(Key::Capacity)),
    (b"EDGE_WEIGHT_TYPE", Keyword::Key(Key::WeightKind)),
    (b"EDGE_WEIGHT_FORMAT", Keyword::Key(Key::WeightFormat)),
    (b"NODE_COORD_SECTION", Keyword::Key(Key::NodeCoord)),
    (b"EDGE_WEIGHT_SECTION", Keyword::Key(Key::EdgeWeight)),
    (b"DEMAND_SECTION", Keyword::Key(Key::Demand)),
    (b"DEPOT_SECTION", Keyword::Key(Key::Depot)),
    (b"NAME", Keyword::Remark),
    (b"COMMENT", Keyword::Remark),
    (b"NODE_COORD_TYPE", Keyword::Remark),
    (b"DISPLAY_DATA_TYPE", Keyword::Remark),
    (b"DISPLAY_DATA_SECTION", Keyword::Display),
    (b"EDGE_DATA_FORMAT", Keyword::Unsupported),
    (b"EDGE_DATA_SECTION", Keyword::Unsupported),
    (b"FIXED_EDGES_SECTION", Keyword::Unsupported),
    (b"TOUR_SECTION", Keyword::Unsupported),
    (b"EOF", Keyword::End),
];

// The table's value for this word.
fn lookup(table: &[(&[u8], Keyword)], word: &[u8]) -> Option<Keyword>
    ensures { result ≡ lookup (bytes_eq word.now) (words_of table.now) }
{
    for (name, keyword) in table {
        if word == *name {
            return Some(*keyword);
        }
    }
    None
}

/// The meaning of a keyword, if the text is one.
pub fn keyword_of(text: &[u8]) -> Option<Keyword>
    ensures { result ≡ keyword_of text.now }
{
    lookup(&KEYWORDS, text)
}
