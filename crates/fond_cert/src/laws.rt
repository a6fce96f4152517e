//! The laws of the texts of certificates, of tables and of certificates of least rank, each the contract of a function with an empty body.

ghost use Rattle.fond_cert.specs.Laws.{BestsAreApart, BestsAreClean, BestsDiffer, DocumentsDiffer, FaultsAreOne, SpellingsAreClean, SpellingsDiffer, TablesAreClean, TablesDiffer};

/// Certificates that belong to a task and are spelled the same are the same: a text spells at most one.
pub fn spellings_differ()
    ensures { SpellingsDiffer }
{}

/// The spelling of a certificate that belongs to a task has no fault.
pub fn spellings_are_clean()
    ensures { SpellingsAreClean }
{}

/// A text has one fault at most as each document: `read_cert`, `read_table` and `read_best` can each refuse it with one code and at one
/// byte only.
pub fn faults_are_one()
    ensures { FaultsAreOne }
{}

/// Tables that belong to a task and are spelled the same are the same: a text spells at most one.
pub fn tables_differ()
    ensures { TablesDiffer }
{}

/// The spelling of a table that belongs to a task has no fault, if the table has fewer than 2^32 rows.
pub fn tables_are_clean()
    ensures { TablesAreClean }
{}

/// No text is that of a certificate and of a table: each is refused at its first byte where the other is to be read.
pub fn documents_differ()
    ensures { DocumentsDiffer }
{}

/// Certificates of least rank that belong to a task and are spelled the same are the same: a text spells at most one.
pub fn bests_differ()
    ensures { BestsDiffer }
{}

/// The spelling of a certificate of least rank that belongs to a task has no fault.
pub fn bests_are_clean()
    ensures { BestsAreClean }
{}

/// No text of a certificate of least rank is that of a certificate or of a table: each is refused at its first byte where another is to
/// be read.
pub fn bests_are_apart()
    ensures { BestsAreApart }
{}
