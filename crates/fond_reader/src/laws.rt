//! Laws of trees and their declarations.

ghost use Rattle.fond_reader.specs.Laws.{CleanDomainsAreRead, CleanProblemsAreRead};

/// A tree of no more tokens than a text may have bytes has no fault as a domain if and only if some domain is read from
/// it. So a tree that is refused is read as no domain, and one that is read has no fault.
pub fn clean_domains_are_read()
    ensures { CleanDomainsAreRead }
{}

/// A tree of no more tokens than a text may have bytes has no fault as a problem if and only if some problem is read
/// from it.
pub fn clean_problems_are_read()
    ensures { CleanProblemsAreRead }
{}
