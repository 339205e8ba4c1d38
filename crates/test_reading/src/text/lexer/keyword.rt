//! Which words are keywords.
use crate::assertion::assert_same;
use vrp_text::{Key, Keyword, keyword_of};

const KEYWORDS: &[(&str, Option<Keyword>)] = &[
    ("TYPE", Some(Keyword::Key(Key::Problem))),
    ("EDGE_WEIGHT_FORMAT", Some(Keyword::Key(Key::WeightFormat))),
    ("DEPOT_SECTION", Some(Keyword::Key(Key::Depot))),
    ("COMMENT", Some(Keyword::Remark)),
    ("DISPLAY_DATA_SECTION", Some(Keyword::Display)),
    ("TOUR_SECTION", Some(Keyword::Unsupported)),
    ("EOF", Some(Keyword::End)),
    ("", None),
    ("type", None),
    ("Type", None),
    ("TYP", None),
    ("TYPES", None),
    ("TYPE ", None),
    ("DISTANCE", None),
];

#[test]
fn keywords_of_words(rt: HostRuntime) {
    for &(word, expected) in KEYWORDS {
        assert_same(&rt, keyword_of(word.as_bytes()), expected, word);
    }
}
