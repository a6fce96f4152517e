//! The lines that are allowed at a place of a text. Each call takes time in the number of sections, and no memory.

ghost use Rattle.fond_cert.specs.declared.due.Due.TheVariants.{Header as HeaderDue};
ghost use Rattle.fond_cert.specs.Counts.{IsOneMore};
ghost use Rattle.fond_cert.specs.Sections.{sections, is_in, after_in, may_end, after_sections, due_after, group_in, taker};
ghost use Rattle.std.specs.Prelude.{◌≡◌, ◌+◌, ◌<◌, ◌^◌, nat_lt, false, length, drop, MatchOption};

use crate::due::{Document, Due, Evidence, Group, Kind, Section, sections};
use fond_form::table::LineKind;

/// One more than the count, if it is still below 2^32.
fn one_more(count: u32) -> Option<u32>
    ensures { MatchOption result (nat_lt (count + 1) (2 ^ 32) ≡ false) (IsOneMore count) }
{
    if count < u32::MAX {
        Some(count + 1)
    } else {
        None
    }
}

/// Whether a kind of line belongs to a group.
fn is_in(group: Group, line: LineKind) -> bool
    ensures { result ≡ is_in group line }
{
    match group {
        Group::Layer => matches!(line, LineKind::Layer),
        Group::Cube => matches!(line, LineKind::Cube),
        Group::Pair => matches!(line, LineKind::Pair),
        Group::Rule => matches!(line, LineKind::FairRule | LineKind::UnfairRule),
        Group::Item => matches!(line, LineKind::GoalItem | LineKind::RuleItem),
        Group::Reach => matches!(line, LineKind::Reach),
        Group::Start => matches!(line, LineKind::Start),
        Group::Row => matches!(line, LineKind::Row),
        Group::Ranked => matches!(line, LineKind::GoalItem | LineKind::RankedItem),
        Group::Far => matches!(line, LineKind::Far),
        Group::FarCube => matches!(line, LineKind::Cube),
    }
}

/// What is due after the line, if this section takes it.
fn after_in(
    section: Section,
    kind: Kind,
    at: usize,
    lines: u32,
    inner: u32,
    line: LineKind,
) -> Option<Due>
    ensures { result ≡ after_in section kind at lines inner line }
{
    let (lines, inner) = match section {
        Section::One(group) if is_in(group, line) && lines == 0 => (1, 0),
        Section::Any(group) if is_in(group, line) => (lines, 0),
        Section::Few(group) if is_in(group, line) => (one_more(lines)?, 0),
        Section::Blocks(first, _) if is_in(first, line) => (one_more(lines)?, 0),
        Section::Blocks(_, second) if is_in(second, line) && 0 < lines => (lines, one_more(inner)?),
        _ => return None,
    };
    Some(Due::Section {
        kind,
        at,
        lines,
        inner,
    })
}

/// Whether a section may end after this many lines or blocks.
fn may_end(section: Section, lines: u32) -> bool
    ensures { result ≡ may_end section lines }
{
    match section {
        Section::One(_) => lines == 1,
        _ => true,
    }
}

/// What is due after the line, by the first of these sections that takes it.
fn after_sections(
    kind: Kind,
    at: usize,
    lines: u32,
    inner: u32,
    sections: &[Section],
    line: LineKind,
) -> Option<Due>
    requires { at + length sections.now < 2 ^ 64 }
    ensures { result ≡ after_sections kind at lines inner sections.now line }
{
    let Some((section, later)) = sections.split_first() else {
        return match line {
            LineKind::End => Some(Due::Nothing),
            _ => None,
        };
    };
    if let Some(next) = after_in(*section, kind, at, lines, inner, line) {
        return Some(next);
    }
    if may_end(*section, lines) {
        after_sections(kind, at + 1, 0, 0, later, line)
    } else {
        None
    }
}

/// What is due after the header of a document.
fn after_header(document: Document, line: LineKind) -> Option<Due>
    ensures { result ≡ due_after (HeaderDue document) line }
{
    let kind = match (document, line) {
        (Document::Certificate, LineKind::PolicyHeader) => Kind::Policy {
            evidence: Evidence::Reach,
        },
        (Document::Certificate, LineKind::CoverHeader) => Kind::Policy {
            evidence: Evidence::Cover,
        },
        (Document::Certificate, LineKind::RefusalHeader) => Kind::Refusal,
        (Document::Table, LineKind::TableHeader) => Kind::Table,
        (Document::Best, LineKind::BestHeader) => Kind::Best,
        _ => return None,
    };
    Some(Due::Section {
        kind,
        at: 0,
        lines: 0,
        inner: 0,
    })
}

/// The sections of a text of this kind from this position on.
fn sections_from(kind: Kind, at: usize) -> &'static [Section]
    ensures rest { result.now ≡ drop at (sections kind) }
    ensures few { at + length result.now < 2 ^ 64 }
{
    let sections = sections(kind);
    &sections[at.min(sections.len())..]
}

/// What is due after the line, if the line is allowed.
pub(crate) fn next_due(due: Due, line: LineKind) -> Option<Due>
    ensures { result ≡ due_after due line }
{
    match due {
        Due::Header { document } => after_header(document, line),
        Due::Section {
            kind,
            at,
            lines,
            inner,
        } => after_sections(kind, at, lines, inner, sections_from(kind, at), line),
        Due::Nothing => None,
    }
}

/// The group of the line of a section that was read last, by the number of inner lines.
fn group_in(section: Section, inner: u32) -> Group
    ensures { result ≡ group_in section inner }
{
    match section {
        Section::One(group) | Section::Any(group) | Section::Few(group) => group,
        Section::Blocks(first, second) => { if inner == 0 { first } else { second } }
    }
}

/// The group of the line after which this is due, if it is a line of a section.
pub(crate) fn taker(next: Due) -> Group
    ensures { result ≡ taker next }
{
    let Due::Section {
        kind,
        at,
        inner,
        ..
    } = next
    else {
        return Group::Layer;
    };
    match sections_from(kind, at).first() {
        Some(section) => group_in(*section, inner),
        None => Group::Layer,
    }
}
