//! Conjunctions and disjunctions of ground conditions that grow part by part. Constants are folded: a part that is
//! constant is left out if it changes nothing, and decides the whole otherwise.

ghost use Rattle.fond_ground.specs.Signs.{junction_value};
ghost use Rattle.fond_task.specs.Junctions.{joined, neutral};
ghost use Rattle.fond_task.specs.Values.{value};
ghost use Rattle.fond_task.specs.Within.{is_form_within};
ghost use Rattle.std.specs.List.{list_all};
ghost use Rattle.std.specs.Prelude.{◌≡◌, ℕ, List, Option, Bool, true, IfOk, OnOk};

use fond_task::form::{Form, Forms, Junction, Kleene};
use fond_text::fault::NoMemory;
use std::alloc::Global;

/// The junction of the parts so far. Once it is decided, a conjunction is false and a disjunction is true, whatever the
/// parts are.
#[derive(Drop)]
pub(crate) struct JunctionForm {
    junction: Junction,
    decided: bool,
    parts: Forms,
}

/// A junction without parts: a conjunction is true, and a disjunction is false.
fn constant(junction: Junction) -> Form
    ensures within { (atoms : ℕ) → is_form_within atoms result ≡ true }
    ensures value { (cube : List (Option Bool)) → value cube result ≡ neutral junction }
{
    match junction {
        Junction::All => Form::Truth(true),
        Junction::Any => Form::Truth(false),
    }
}

impl JunctionForm {
    /// The junction without parts.
    pub(crate) fn new(alloc: Global, junction: Junction) -> JunctionForm
        ensures kind { result.junction ≡ junction }
        ensures within { (atoms : ℕ) → list_all (is_form_within atoms) result.parts.items ≡ true }
        ensures value { (cube : List (Option Bool)) → junction_value cube result ≡ neutral junction }
    {
        JunctionForm {
            junction,
            decided: false,
            parts: Vec::new(alloc),
        }
    }

    /// Whether further parts change nothing.
    pub(crate) fn is_decided(&self) -> bool
        ensures { result ≡ self.now.decided }
    {
        self.decided
    }

    /// Adds a part.
    pub(crate) fn add(&mut self, form: Form) -> Result<(), NoMemory>
        ensures kind { self.new.junction ≡ self.old.junction }
        ensures within { OnOk result ((atoms : ℕ) → is_form_within atoms form ≡ true → list_all (is_form_within atoms) self.old.parts.items ≡ true → list_all (is_form_within atoms) self.new.parts.items ≡ true) }
        ensures value { OnOk result ((cube : List (Option Bool)) → junction_value cube self.new ≡ joined self.old.junction (junction_value cube self.old) (value cube form)) }
    {
        match form {
            Form::Truth(truth) => {
                self.decided = self.decided || Kleene::of(truth) != self.junction.neutral();
                Ok(())
            }
            part => {
                self.parts.push(part)?;
                Ok(())
            }
        }
    }

    /// The condition, which is constant if it is decided or has no parts.
    pub(crate) fn form(self) -> Form
        ensures within { (atoms : ℕ) → list_all (is_form_within atoms) self.parts.items ≡ true → is_form_within atoms result ≡ true }
        ensures value { (cube : List (Option Bool)) → value cube result ≡ junction_value cube self }
    {
        if self.decided {
            return constant(self.junction.dual());
        }
        if self.parts.is_empty() {
            return constant(self.junction);
        }
        match self.junction {
            Junction::All => Form::And(self.parts),
            Junction::Any => Form::Or(self.parts),
        }
    }
}

/// The junction of two conditions.
pub(crate) fn junction_of(
    alloc: Global,
    first: Form,
    second: Form,
    junction: Junction,
) -> Result<Form, NoMemory>
    ensures within { (atoms : ℕ) → is_form_within atoms first ≡ true → is_form_within atoms second ≡ true → IfOk result (λ form. is_form_within atoms form ≡ true) }
    ensures value { IfOk result (λ form. (cube : List (Option Bool)) → value cube form ≡ joined junction (joined junction (neutral junction) (value cube first)) (value cube second)) }
{
    let mut whole = JunctionForm::new(alloc, junction);
    whole.add(first)?;
    whole.add(second)?;
    Ok(whole.form())
}
