//! What is due at a place of a text, and the sections of each kind of text, as data.

ghost use Rattle.fond_cert.specs.Sections.{sections};
ghost use Rattle.std.specs.Prelude.{◌≡◌};

/// How a policy shows that it acts wherever it leads: by the number of states that it reaches, or by a cover of them.
#[derive(Clone, Copy)]
pub enum Evidence {
    Reach,
    Cover,
}

/// What a text is to spell.
#[derive(Clone, Copy)]
pub enum Document {
    Certificate,
    Table,
    Best,
}

/// Whether a text is that of a policy, a refusal, a table or a certificate of least rank.
#[derive(Clone, Copy)]
pub enum Kind {
    Policy { evidence: Evidence },
    Refusal,
    Table,
    Best,
}

/// Kinds of lines that may take each other's places. A goal item is an item of a certificate, or a ranked item; a cube belongs to a
/// layer, or to a list of far cubes.
#[derive(Clone, Copy)]
pub enum Group {
    Layer,
    Cube,
    Pair,
    Rule,
    Item,
    Reach,
    Start,
    Row,
    Ranked,
    Far,
    FarCube,
}

/// Lines that belong together: one of a group; any number of them, or fewer than 2^32; or fewer than 2^32 blocks, each of which is a
/// line of the first group and fewer than 2^32 lines of the second.
#[derive(Clone, Copy)]
pub enum Section {
    One(Group),
    Any(Group),
    Few(Group),
    Blocks(Group, Group),
}

/// What is due: the header of a document; a line of the section at this position or of a later one, or the last line, after this
/// many lines or blocks of the section (0 if it may have any number of lines), the last block with this many inner lines; or nothing
/// more.
#[derive(Clone, Copy)]
pub enum Due {
    Header {
        document: Document,
    },
    Section {
        kind: Kind,
        at: usize,
        lines: u32,
        inner: u32,
    },
    Nothing,
}

/// The sections of a text of this kind, between its header and its last line.
pub(crate) fn sections(kind: Kind) -> &'static [Section]
    ensures { result.now ≡ sections kind }
{
    match kind {
        Kind::Policy {
            evidence: Evidence::Reach,
        } => &[
            Section::Blocks(Group::Layer, Group::Cube),
            Section::Any(Group::Pair),
            Section::Few(Group::Rule),
            Section::One(Group::Reach),
        ],
        Kind::Policy {
            evidence: Evidence::Cover,
        } => &[
            Section::Blocks(Group::Layer, Group::Cube),
            Section::Any(Group::Pair),
            Section::Few(Group::Rule),
            Section::Few(Group::Item),
            Section::One(Group::Start),
        ],
        Kind::Refusal => &[Section::Blocks(Group::Layer, Group::Cube)],
        Kind::Table => &[Section::Few(Group::Row)],
        Kind::Best => &[
            Section::Blocks(Group::Layer, Group::Cube),
            Section::Few(Group::Rule),
            Section::Few(Group::Ranked),
            Section::One(Group::Start),
            Section::Blocks(Group::Far, Group::FarCube),
        ],
    }
}
