//! The three texts of the task.

ghost use Rattle.fond_demo.specs.Demos.{demo_domain, demo_problem, demo_side};
ghost use Rattle.fond_text.specs.Text.{Adds};
ghost use Rattle.std.specs.Prelude.{◌≡◌, ◌≤◌, IfOk};

use crate::problem::problem_text;
use fond_text::bytes::Bytes;
use fond_text::fault::NoMemory;
use fond_text::text::Text;
use std::alloc::Global;

/// The texts of a task.
#[derive(Drop)]
pub struct DemoFiles {
    pub domain: Bytes,
    pub problem: Bytes,
    pub side: Bytes,
}

/// Adds the text of the domain.
fn put_domain(text: &mut Text)
    ensures { Adds text.old text.new demo_domain }
{
    text.add(b"(define (domain demo) (:types place lamp) (:constants l0 - lamp)\n");
    text.add(
        b"(:predicates (at ?p - place) (easy ?p ?q - place) (hard ?p ?q - place) (lit ?l - lamp))\n",
    );
    text.add(
        b"(:action walk :parameters (?p ?q - place) :precondition (and (at ?p) (easy ?p ?q))\n",
    );
    text.add(b" :effect (oneof (and (not (at ?p)) (at ?q)) (and)))\n");
    text.add(
        b"(:action carry :parameters (?p ?q - place) :precondition (and (at ?p) (hard ?p ?q))\n",
    );
    text.add(
        b" :effect (oneof (and (not (at ?p)) (at ?q)) (and (not (at ?p)) (at ?q) (lit l0))))\n",
    );
    text.add(b"(:action press :parameters (?l - lamp) :effect (oneof (lit ?l) (not (lit ?l)))))\n");
}

/// The text of the domain.
fn domain_text(alloc: Global) -> Result<Vec<u8>, NoMemory>
    ensures { IfOk result (λ text. text.items ≡ demo_domain) }
{
    let mut text = Text::new(alloc);
    put_domain(&mut text);
    text.finish()
}

/// The texts of the task of this size: a row of so many steps, of which an opponent has a hand in about half, and at most 12
/// lamps. Takes time and memory in the length of the texts, which are below 10,000 bytes.
pub fn demo_files(alloc: Global, size: u64) -> Result<DemoFiles, NoMemory>
    requires { size ≤ 100 }
    ensures domain { IfOk result (λ files. files.domain ≡ demo_domain) }
    ensures problem { IfOk result (λ files. files.problem ≡ demo_problem size) }
    ensures side { IfOk result (λ files. files.side ≡ demo_side) }
{
    let domain = domain_text(alloc)?;
    let problem = problem_text(alloc, size)?;
    Ok(DemoFiles {
        domain: Bytes::of(domain),
        problem: Bytes::of(problem),
        side: Bytes::copy(alloc, b"carry\n")?,
    })
}
