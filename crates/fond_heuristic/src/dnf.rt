//! Disjunctive normal forms of conditions, at most a few disjuncts long.

use fond_moves::index::Literal;
use fond_task::form::Form;
use fond_text::fault::NoMemory;
use std::alloc::Global;

/// The most disjuncts. Of a condition that has more, parts are left out, so that it asks for less.
const MOST: usize = 32;

/// Literals that all hold.
pub type Literals = Vec<Literal>;

/// Disjuncts, one of which holds.
pub type Dnf = Vec<Literals>;

/// The disjunction that is always true.
fn truth(alloc: Global) -> Result<Dnf, NoMemory> {
    let mut disjuncts = Vec::new(alloc);
    disjuncts.push(Vec::new(alloc))?;
    Ok(disjuncts)
}

/// Whether the literals have this one.
pub fn contains(literals: &[Literal], literal: Literal) -> bool {
    for one in literals {
        if *one == literal {
            return true;
        }
    }
    false
}

/// The literals of both, each once.
pub fn both(alloc: Global, one: &[Literal], other: &[Literal]) -> Result<Literals, NoMemory> {
    let mut all = Vec::from_slice(alloc, one)?;
    for literal in other {
        if !contains(&all, *literal) {
            all.push(*literal)?;
        }
    }
    Ok(all)
}

/// Adds the conjunction of a disjunct with each of others.
fn add_products(
    alloc: Global,
    one: &[Literal],
    others: &Dnf,
    out: &mut Dnf,
) -> Result<(), NoMemory> {
    for other in others {
        out.push(both(alloc, one, other)?)?;
    }
    Ok(())
}

/// Makes the first the conjunction of both, unless that has too many disjuncts.
fn multiply(alloc: Global, one: &mut Dnf, other: &Dnf) -> Result<(), NoMemory> {
    if one.len().saturating_mul(other.len()) > MOST {
        return Ok(());
    }
    let mut out = Vec::new(alloc);
    for disjunct in one.iter() {
        add_products(alloc, disjunct, other, &mut out)?;
    }
    *one = out;
    Ok(())
}

/// Adds disjuncts to others.
fn append(alloc: Global, one: &mut Dnf, other: &Dnf) -> Result<(), NoMemory> {
    for disjunct in other {
        one.push(Vec::from_slice(alloc, disjunct.as_slice())?)?;
    }
    Ok(())
}

/// The disjunction of one literal.
fn one_literal(alloc: Global, literal: Literal) -> Result<Dnf, NoMemory> {
    let mut disjuncts = truth(alloc)?;
    if let Some(literals) = disjuncts.last_mut() {
        literals.push(literal)?;
    }
    Ok(disjuncts)
}

/// The disjunction, or the one that is always true if it has too many disjuncts.
fn bounded(alloc: Global, disjuncts: Dnf) -> Result<Dnf, NoMemory> {
    if disjuncts.len() > MOST {
        truth(alloc)
    } else {
        Ok(disjuncts)
    }
}

/// The normal form of a condition.
pub fn dnf_of(alloc: Global, form: &Form) -> Result<Dnf, NoMemory> {
    match form {
        Form::Truth(true) => truth(alloc),
        Form::Truth(false) => Ok(Vec::new(alloc)),
        Form::Lit(atom, sign) => {
            let literal = Literal {
                atom: *atom,
                sign: *sign,
            };
            one_literal(alloc, literal)
        }
        Form::And(parts) => {
            let mut all = truth(alloc)?;
            for part in parts {
                multiply(alloc, &mut all, &dnf_of(alloc, part)?)?;
            }
            Ok(all)
        }
        Form::Or(parts) => {
            let mut all = Vec::new(alloc);
            for part in parts {
                append(alloc, &mut all, &dnf_of(alloc, part)?)?;
            }
            bounded(alloc, all)
        }
    }
}
