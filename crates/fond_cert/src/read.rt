//! Reading a certificate, a table or a certificate of least rank.

ghost use Rattle.fond_policy.specs.Belongs.{Belongs, BelongsAsBest};
ghost use Rattle.fond_cert.specs.Faults.{IsBestFault, IsCertFault, IsTableFault};
ghost use Rattle.fond_cert.specs.Progress.{best_of, cert_of};
ghost use Rattle.fond_cert.specs.Refusals.{CertRefuses};
ghost use Rattle.fond_policy.specs.Sizes.{HasSmallNumbers};
ghost use Rattle.fond_cert.specs.Smalls.{HasSmallBest};
ghost use Rattle.fond_cert.specs.Spellings.{best_spelling, spelling, table_spelling};
ghost use Rattle.fond_rules.specs.Tables.{BelongAsRows};
ghost use Rattle.std.specs.Prelude.{◌≡◌, IfOk, IfErr};

use crate::draft::Draft;
use crate::due::Document;
use crate::error::CertError;
use crate::lines::read_lines;
use crate::task_index::TaskIndex;
use fond_policy::best::BestCert;
use fond_policy::cert::Cert;
use fond_rules::table::Table;
use fond_task::task::Task;
use fond_text::fault::NoMemory;
use std::alloc::Global;

/// The certificate of a draft.
fn finish(draft: Draft) -> Cert
    ensures { result ≡ cert_of draft }
{
    if let Some(reach) = draft.reach {
        return Cert::Policy {
            layers: draft.layers,
            pairs: draft.pairs,
            rules: draft.rules,
            reach,
        };
    }
    let Some(start) = draft.start else {
        return Cert::Refusal {
            layers: draft.layers,
        };
    };
    Cert::Covered {
        layers: draft.layers,
        pairs: draft.pairs,
        rules: draft.rules,
        items: draft.items,
        start,
    }
}

/// The certificate that a text spells, or the text's first fault.
fn read_with(alloc: Global, index: &TaskIndex, text: &[u8]) -> Result<Cert, CertError>
    ensures belongs { IfOk result (Belongs index.now) }
    ensures small { IfOk result HasSmallNumbers }
    ensures read { IfOk result (λ cert. text.now ≡ spelling index.now cert) }
    ensures refused { IfErr result (CertRefuses (IsCertFault index.now text.now)) }
{
    let draft = read_lines(alloc, index, Document::Certificate, text)?;
    Ok(finish(draft))
}

/// The certificate that a text spells, or the text's first fault (docs/CERTIFICATES.md). Takes time linear in the length
/// of the text, in that of the names of all actions and atoms of the task, and in the number of atoms for each cube,
/// pair, rule and item; memory for the certificate and the names.
pub fn read_cert(alloc: Global, task: &Task, text: &[u8]) -> Result<Cert, CertError>
    ensures belongs { IfOk result (Belongs task.now) }
    ensures small { IfOk result HasSmallNumbers }
    ensures read { IfOk result (λ cert. text.now ≡ spelling task.now cert) }
    ensures refused { IfErr result (CertRefuses (IsCertFault task.now text.now)) }
{
    let index = TaskIndex::of(alloc, task)?;
    read_with(alloc, &index, text)
}

/// The table that a text spells, or the text's first fault.
fn read_table_with(alloc: Global, index: &TaskIndex, text: &[u8]) -> Result<Table, CertError>
    ensures belongs { IfOk result (λ table. BelongAsRows index.now table) }
    ensures read { IfOk result (λ table. text.now ≡ table_spelling index.now table) }
    ensures refused { IfErr result (CertRefuses (IsTableFault index.now text.now)) }
{
    let draft = read_lines(alloc, index, Document::Table, text)?;
    Ok(draft.rows)
}

/// The table that a text spells, or the text's first fault (docs/CERTIFICATES.md). Takes time linear in the length of the text and
/// in that of the names of all actions and atoms of the task, and for each row, in the number of atoms times the logarithm of that
/// of the rows; memory for the table and the names.
pub fn read_table(alloc: Global, task: &Task, text: &[u8]) -> Result<Table, CertError>
    ensures belongs { IfOk result (λ table. BelongAsRows task.now table) }
    ensures read { IfOk result (λ table. text.now ≡ table_spelling task.now table) }
    ensures refused { IfErr result (CertRefuses (IsTableFault task.now text.now)) }
{
    let index = TaskIndex::of(alloc, task)?;
    read_table_with(alloc, &index, text)
}

/// The certificate of least rank of a draft.
fn finish_best(draft: Draft) -> BestCert
    ensures { result ≡ best_of draft }
{
    let start = draft.start.unwrap_or(0);
    let (items, ranks) = draft.ranked.split();
    BestCert {
        layers: draft.layers,
        rules: draft.rules,
        items,
        ranks,
        start,
        far: draft.far,
    }
}

/// The certificate of least rank that a text spells, or the text's first fault.
fn read_best_with(alloc: Global, index: &TaskIndex, text: &[u8]) -> Result<BestCert, CertError>
    ensures belongs { IfOk result (BelongsAsBest index.now) }
    ensures small { IfOk result HasSmallBest }
    ensures read { IfOk result (λ cert. text.now ≡ best_spelling index.now cert) }
    ensures refused { IfErr result (CertRefuses (IsBestFault index.now text.now)) }
{
    let draft = read_lines(alloc, index, Document::Best, text)?;
    Ok(finish_best(draft))
}

/// The certificate of least rank that a text spells, or the text's first fault (docs/CERTIFICATES.md). Takes time linear in the length
/// of the text, in that of the names of all actions and atoms of the task, and in the number of atoms for each cube, rule and item;
/// memory for the certificate and the names.
pub fn read_best(alloc: Global, task: &Task, text: &[u8]) -> Result<BestCert, CertError>
    ensures belongs { IfOk result (BelongsAsBest task.now) }
    ensures small { IfOk result HasSmallBest }
    ensures read { IfOk result (λ cert. text.now ≡ best_spelling task.now cert) }
    ensures refused { IfErr result (CertRefuses (IsBestFault task.now text.now)) }
{
    let index = TaskIndex::of(alloc, task)?;
    read_best_with(alloc, &index, text)
}
