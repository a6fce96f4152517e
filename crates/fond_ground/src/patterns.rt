//! Which actions of a schema are unfair. The patterns of a schema are found by a hash, one look for each shape that they
//! have, so that many of them cost an action no more than one.

ghost use Rattle.fond_ground.specs.Patterns.{blank, code, leader, renamed, shape, term_code, with_object, Agrees, AreFiled, AreKept, AreSeen, Fit, Follows, HasShapeAt};
ghost use Rattle.fond_store.specs.Texts.{number_beside};
ghost use Rattle.fond_ast.specs.Patterns.{is_variable, leads, IsUnfairWith};
ghost use Rattle.std.specs.Bool.{Decides};
ghost use Rattle.std.specs.Prelude.{◌≡◌, ◌<◌, ◌+◌, ◌++◌, [], IfOk, OnOk, is_some, length, map, position, true};

use fond_ast::form::{LPatterns, LTerm};
use fond_ast::task::LSchema;
use fond_store::index::TupleIndex;
use fond_text::fault::NoMemory;
use fond_text::list::List;
use std::alloc::Global;

/// The patterns of a schema: the codes of all, and for each shape the position of a pattern that has it.
#[derive(Drop)]
pub(crate) struct Patterns<'a> {
    all: &'a LPatterns,
    codes: TupleIndex,
    shapes: List<usize>,
}

/// Whether a term is a variable.
fn is_variable(term: &LTerm, number: u32) -> bool
    ensures { result ≡ is_variable number term.now }
{
    match term {
        LTerm::Object(_) => false,
        LTerm::Variable(other) => *other == number,
    }
}

/// Whether a variable stands at the position that is its number.
fn leads(pattern: &[LTerm], number: u32) -> bool
    ensures { result ≡ leads pattern.now number }
{
    match pattern.get(number as usize) {
        Some(term) => is_variable(term, number),
        None => false,
    }
}

/// The first position of a variable.
fn first_of(pattern: &[LTerm], number: u32) -> Option<usize>
    ensures { result ≡ position (is_variable number) pattern.now }
{
    pattern.iter().position(|term| is_variable(term, number))
}

/// A position of a variable: its number if it stands there, as in the patterns that are read from a side list, and
/// otherwise the first one.
fn leader(pattern: &[LTerm], number: u32) -> Option<usize>
    ensures { result ≡ leader pattern.now number }
{
    if leads(pattern, number) {
        Some(number as usize)
    } else {
        first_of(pattern, number)
    }
}

/// Whether the object at a position is the one at the leading position of the variable that stands there.
fn follows(pattern: &[LTerm], objects: &[u32], i: usize) -> bool
    requires inside { i < length pattern.now }
    requires counted { length pattern.now ≡ length objects.now }
    ensures { Decides result (Follows pattern.now objects.now i) }
{
    match pattern[i] {
        LTerm::Object(_) => true,
        LTerm::Variable(number) => match leader(pattern, number) {
            Some(first) => objects[i] == objects[first],
            None => true,
        },
    }
}

/// Whether there are as many objects as terms, and equal objects at equal variables.
fn agrees(pattern: &[LTerm], objects: &[u32]) -> bool
    ensures { Decides result (Agrees pattern.now objects.now) }
{
    if pattern.len() != objects.len() {
        return false;
    }
    for i in 0..pattern.len() {
        if !follows(pattern, objects, i) {
            return false;
        }
    }
    true
}

/// A term whose object is left open.
fn blank(term: LTerm) -> LTerm
    ensures { result ≡ blank term }
{
    match term {
        LTerm::Object(_) => LTerm::Object(0),
        LTerm::Variable(number) => LTerm::Variable(number),
    }
}

/// A term with another object in place of its own.
fn with_object(term: LTerm, object: u32) -> LTerm
    ensures { result ≡ with_object term object }
{
    match term {
        LTerm::Object(_) => LTerm::Object(object),
        LTerm::Variable(number) => LTerm::Variable(number),
    }
}

/// Appends the code of a term.
fn put_term(numbers: &mut Vec<u32>, term: LTerm) -> Result<(), NoMemory>
    ensures { OnOk result (numbers.new.items ≡ numbers.old.items ++ term_code term) }
{
    let (kind, number) = match term {
        LTerm::Object(number) => (0, number),
        LTerm::Variable(number) => (1, number),
    };
    numbers.push(kind)?;
    numbers.push(number)?;
    Ok(())
}

/// The code of a pattern.
fn code_of(alloc: Global, pattern: &[LTerm]) -> Result<Vec<u32>, NoMemory>
    ensures { IfOk result (λ numbers. numbers.items ≡ code pattern.now) }
{
    let mut numbers = Vec::new(alloc);
    for term in pattern {
        put_term(&mut numbers, *term)?;
    }
    Ok(numbers)
}

/// The code of the shape of a pattern.
fn shape_code(alloc: Global, pattern: &[LTerm]) -> Result<Vec<u32>, NoMemory>
    ensures { IfOk result (λ numbers. numbers.items ≡ code (shape pattern.now)) }
{
    let mut numbers = Vec::new(alloc);
    for term in pattern {
        put_term(&mut numbers, blank(*term))?;
    }
    Ok(numbers)
}

/// The code of the pattern of the same shape that names these objects.
fn renamed_code(alloc: Global, pattern: &[LTerm], objects: &[u32]) -> Result<Vec<u32>, NoMemory>
    requires { length pattern.now ≡ length objects.now }
    ensures { IfOk result (λ numbers. numbers.items ≡ code (renamed pattern.now objects.now)) }
{
    let mut numbers = Vec::new(alloc);
    for i in 0..pattern.len() {
        put_term(&mut numbers, with_object(pattern[i], objects[i]))?;
    }
    Ok(numbers)
}

/// Keeps the position of a pattern if its shape has not been seen.
fn file_shape(
    alloc: Global,
    all: &LPatterns,
    i: usize,
    seen: &mut TupleIndex,
    shapes: &mut List<usize>,
) -> Result<(), NoMemory>
    requires inside { i < length all.now }
    requires seen { AreSeen all.now seen.old shapes.old }
    ensures seen { OnOk result (AreSeen all.now seen.new shapes.new) }
    ensures shaped { OnOk result (HasShapeAt all.now shapes.new i) }
    ensures kept { OnOk result (AreKept (length all.now) shapes.old shapes.new) }
{
    let shape = shape_code(alloc, all.get(i).as_slice())?;
    if seen.find(&shape).is_none() {
        seen.insert(shape, 0)?;
        shapes.push(i)?;
    }
    Ok(())
}

impl<'a> Patterns<'a> {
    /// Files the patterns, of which none is filed.
    fn file_all(&mut self, alloc: Global) -> Result<(), NoMemory>
        requires no_codes { self.old.codes ≡ [] }
        requires no_shapes { self.old.shapes ≡ [] }
        ensures same { self.new.all ≡ self.old.all }
        ensures filed { OnOk result (AreFiled self.old.all.now (length self.old.all.now) self.new.codes self.new.shapes) }
    {
        let mut seen = TupleIndex::new(alloc);
        for i in 0..self.all.len() {
            file_shape(alloc, self.all, i, &mut seen, &mut self.shapes)?;
            self.codes
                .insert(code_of(alloc, self.all.get(i).as_slice())?, 0)?;
        }
        Ok(())
    }

    /// Files the patterns of a schema. Takes time and memory in their length.
    pub(crate) fn of(alloc: Global, all: &'a LPatterns) -> Result<Box<Patterns<'a>>, NoMemory>
        ensures all { IfOk result (λ patterns. patterns.value.all.now ≡ all.now) }
        ensures filed { IfOk result (λ patterns. AreFiled all.now (length all.now) patterns.value.codes patterns.value.shapes) }
    {
        let mut patterns = Box::new(
            alloc,
            Patterns {
                all,
                codes: TupleIndex::new(alloc),
                shapes: List::new(alloc),
            },
        )?;
        patterns.file_all(alloc)?;
        Ok(patterns)
    }

    /// Whether a pattern of the shape of one of them fits objects.
    fn fits_shape(
        &self,
        alloc: Global,
        pattern: &[LTerm],
        objects: &[u32],
    ) -> Result<bool, NoMemory>
        ensures { IfOk result (λ found. Decides found (Agrees pattern.now objects.now × (is_some (number_beside self.now.codes (code (renamed pattern.now objects.now))) ≡ true))) }
    {
        if !agrees(pattern, objects) {
            return Ok(false);
        }
        let code = renamed_code(alloc, pattern, objects)?;
        Ok(self.codes.find(&code).is_some())
    }

    /// Whether some pattern fits objects.
    fn fit(&self, alloc: Global, objects: &[u32]) -> Result<bool, NoMemory>
        requires { AreFiled self.now.all.now (length self.now.all.now) self.now.codes self.now.shapes }
        ensures { IfOk result (λ found. Decides found (Fit self.now.all.now objects.now)) }
    {
        for i in 0..self.shapes.len() {
            let pattern = self.all.get(*self.shapes.get(i));
            if self.fits_shape(alloc, pattern.as_slice(), objects)? {
                return Ok(true);
            }
        }
        Ok(false)
    }
}

/// Whether the action of a schema with these objects is unfair. Takes time in the number of objects and of shapes.
pub(crate) fn is_unfair(
    alloc: Global,
    schema: &LSchema,
    patterns: &Patterns,
    objects: &[u32],
) -> Result<bool, NoMemory>
    requires all { patterns.now.all.now ≡ schema.now.patterns }
    requires filed { AreFiled schema.now.patterns (length schema.now.patterns) patterns.now.codes patterns.now.shapes }
    ensures { IfOk result (λ unfair. Decides unfair (IsUnfairWith schema.now objects.now)) }
{
    if schema.unfair {
        return Ok(true);
    }
    patterns.fit(alloc, objects)
}
