//! The lines of certificates and of tables, as data: a kind of line has a form, and a form is a list of fields. A new kind is a row
//! in `form` and in `kinds`.

ghost use Rattle.fond_form.specs.Forms.{form, kinds, text_of};
ghost use Rattle.std.specs.Prelude.{◌≡◌};

/// A text that lines have in common.
#[derive(Clone, Copy)]
pub enum Text {
    PolicyHeader,
    RefusalHeader,
    CoverHeader,
    TableHeader,
    BestHeader,
    Layer,
    Cube,
    Pair,
    Rule,
    Fair,
    Unfair,
    Reach,
    GoalItem,
    Item,
    Rank,
    Start,
    Far,
    Do,
    End,
    Space,
    Colon,
    Empty,
}

/// A sort of values: nothing; an action; a number that must be below 2^32, or below 2^64; a target, which is `goal` or a number
/// below 2^32; one or more numbers below 2^32, or targets, each after a space; or literals.
#[derive(Clone, Copy)]
pub enum Sort {
    Nothing,
    Action,
    Short,
    Long,
    Target,
    Shorts,
    Targets,
    Literals,
}

/// A text, and the sort of the value that follows it.
pub type Field = (Text, Sort);

/// A kind of line.
#[derive(Clone, Copy)]
pub enum LineKind {
    PolicyHeader,
    RefusalHeader,
    CoverHeader,
    TableHeader,
    BestHeader,
    Layer,
    Cube,
    Pair,
    FairRule,
    UnfairRule,
    Reach,
    GoalItem,
    RuleItem,
    RankedItem,
    Start,
    Far,
    Row,
    End,
}

/// The bytes of a text.
pub fn bytes_of(text: Text) -> &'static [u8]
    ensures { result.now ≡ text_of text }
{
    match text {
        Text::PolicyHeader => b"dualfond 1 policy",
        Text::RefusalHeader => b"dualfond 1 refusal",
        Text::CoverHeader => b"dualfond 2 policy",
        Text::TableHeader => b"table 1",
        Text::BestHeader => b"dualfond 2 best",
        Text::Layer => b"layer",
        Text::Cube => b"cube",
        Text::Pair => b"pair ",
        Text::Rule => b"rule ",
        Text::Fair => b" fair ",
        Text::Unfair => b" unfair",
        Text::Reach => b"reach ",
        Text::GoalItem => b"item goal :",
        Text::Item => b"item ",
        Text::Rank => b" rank ",
        Text::Start => b"start ",
        Text::Far => b"far",
        Text::Do => b"do ",
        Text::End => b"end",
        Text::Space => b" ",
        Text::Colon => b" :",
        Text::Empty => b"",
    }
}

/// The fields of a kind of line, from left to right.
pub fn form(kind: LineKind) -> &'static [Field]
    ensures { result.now ≡ form kind }
{
    match kind {
        LineKind::PolicyHeader => &[(Text::PolicyHeader, Sort::Nothing)],
        LineKind::RefusalHeader => &[(Text::RefusalHeader, Sort::Nothing)],
        LineKind::CoverHeader => &[(Text::CoverHeader, Sort::Nothing)],
        LineKind::TableHeader => &[(Text::TableHeader, Sort::Nothing)],
        LineKind::BestHeader => &[(Text::BestHeader, Sort::Nothing)],
        LineKind::Layer => &[(Text::Layer, Sort::Nothing)],
        LineKind::Cube => &[(Text::Cube, Sort::Literals)],
        LineKind::Pair => &[
            (Text::Pair, Sort::Action),
            (Text::Space, Sort::Short),
            (Text::Space, Sort::Short),
            (Text::Space, Sort::Short),
            (Text::Colon, Sort::Literals),
        ],
        LineKind::FairRule => &[
            (Text::Rule, Sort::Action),
            (Text::Fair, Sort::Short),
            (Text::Space, Sort::Target),
            (Text::Colon, Sort::Literals),
        ],
        LineKind::UnfairRule => &[
            (Text::Rule, Sort::Action),
            (Text::Unfair, Sort::Targets),
            (Text::Colon, Sort::Literals),
        ],
        LineKind::Reach => &[(Text::Reach, Sort::Long)],
        LineKind::GoalItem => &[(Text::GoalItem, Sort::Literals)],
        LineKind::RuleItem => &[
            (Text::Item, Sort::Short),
            (Text::Empty, Sort::Shorts),
            (Text::Colon, Sort::Literals),
        ],
        LineKind::RankedItem => &[
            (Text::Item, Sort::Short),
            (Text::Rank, Sort::Long),
            (Text::Empty, Sort::Shorts),
            (Text::Colon, Sort::Literals),
        ],
        LineKind::Start => &[(Text::Start, Sort::Short)],
        LineKind::Far => &[(Text::Far, Sort::Nothing)],
        LineKind::Row => &[(Text::Do, Sort::Action), (Text::Colon, Sort::Literals)],
        LineKind::End => &[(Text::End, Sort::Nothing)],
    }
}

/// All kinds of lines, those that occur most often first.
pub(crate) fn kinds() -> &'static [LineKind]
    ensures { result.now ≡ kinds }
{
    &[
        LineKind::Cube,
        LineKind::FairRule,
        LineKind::RuleItem,
        LineKind::RankedItem,
        LineKind::UnfairRule,
        LineKind::Row,
        LineKind::Pair,
        LineKind::GoalItem,
        LineKind::Layer,
        LineKind::Far,
        LineKind::Reach,
        LineKind::Start,
        LineKind::PolicyHeader,
        LineKind::RefusalHeader,
        LineKind::CoverHeader,
        LineKind::TableHeader,
        LineKind::BestHeader,
        LineKind::End,
    ]
}
