//! The words that lines begin with.

ghost use Rattle.std.specs.Prelude.{◌≡◌};
ghost use Rattle.script_text.specs.Answers.{texts};
ghost use Rattle.script_text.specs.Keyword.{keyword_of, spelling, allows, has_unknown_word};

// The first word of a line.
#[derive(Clone, Copy, Debug, PartialEq, Eq)]
pub(crate) enum Keyword {
    Set,
    Both,
    Fix,
    Join,
    Adopt,
    Fuse,
    Direct,
    Wreath,
    Undo,
    Redo,
    Show,
    Raw,
    Classes,
    Constants,
    Tests,
    Array,
    Closed,
    Quotient,
    Sub,
    Close,
    Good,
    Mergings,
    Trace,
    Write,
}

// All of them.
const KEYWORDS: [Keyword; 24] = [
    Keyword::Set,
    Keyword::Both,
    Keyword::Fix,
    Keyword::Join,
    Keyword::Adopt,
    Keyword::Fuse,
    Keyword::Direct,
    Keyword::Wreath,
    Keyword::Undo,
    Keyword::Redo,
    Keyword::Show,
    Keyword::Raw,
    Keyword::Classes,
    Keyword::Constants,
    Keyword::Tests,
    Keyword::Array,
    Keyword::Closed,
    Keyword::Quotient,
    Keyword::Sub,
    Keyword::Close,
    Keyword::Good,
    Keyword::Mergings,
    Keyword::Trace,
    Keyword::Write,
];

impl Keyword {
    // How the keyword is spelled.
    fn spelling(self) -> &'static [u8]
        ensures { result.now ≡ spelling self }
    {
        match self {
            Keyword::Set => b"set",
            Keyword::Both => b"both",
            Keyword::Fix => b"fix",
            Keyword::Join => b"join",
            Keyword::Adopt => b"adopt",
            Keyword::Fuse => b"fuse",
            Keyword::Direct => b"direct",
            Keyword::Wreath => b"wreath",
            Keyword::Undo => b"undo",
            Keyword::Redo => b"redo",
            Keyword::Show => b"show",
            Keyword::Raw => b"raw",
            Keyword::Classes => b"classes",
            Keyword::Constants => b"constants",
            Keyword::Tests => b"tests",
            Keyword::Array => b"array",
            Keyword::Closed => b"closed",
            Keyword::Quotient => b"quotient",
            Keyword::Sub => b"sub",
            Keyword::Close => b"close",
            Keyword::Good => b"good",
            Keyword::Mergings => b"mergings",
            Keyword::Trace => b"trace",
            Keyword::Write => b"write",
        }
    }
}

// The keyword that a word is, if it is one.
pub(crate) fn keyword_of(word: &[u8]) -> Option<Keyword>
    ensures { result ≡ keyword_of word.now }
{
    KEYWORDS
        .iter()
        .copied()
        .find(|keyword| word == keyword.spelling())
}

// Whether so many words may follow the keyword.
pub(crate) fn allows(keyword: Keyword, count: usize) -> bool
    ensures { result ≡ allows keyword count }
{
    match keyword {
        Keyword::Set | Keyword::Both => count == 3,
        Keyword::Fix | Keyword::Direct | Keyword::Wreath => count == 1,
        Keyword::Join => count == 2,
        Keyword::Fuse | Keyword::Array | Keyword::Quotient | Keyword::Close => count >= 1,
        Keyword::Sub | Keyword::Write => count >= 2,
        Keyword::Mergings => count == 1 || count >= 3,
        Keyword::Trace => count <= 1,
        _ => count == 0,
    }
}

// Whether another word stands in the place of `after`, of the `2` of a trace, or of the name of a
// graph format.
pub(crate) fn has_unknown_word(keyword: Keyword, words: &[&[u8]]) -> bool
    ensures { result ≡ has_unknown_word keyword (texts words.now) }
{
    match (keyword, words) {
        (Keyword::Mergings, [_, word, ..]) => *word != b"after".as_slice(),
        (Keyword::Trace, [word, ..]) => *word != b"2".as_slice(),
        (Keyword::Write, [word, ..]) => *word != b"graph6".as_slice()
            && *word != b"digraph6".as_slice(),
        _ => false,
    }
}
