//! The text of the problem.

ghost use Rattle.fond_demo.specs.Words.{drawn_words};
ghost use Rattle.fond_demo.specs.Demos.{demo_objects, demo_problem, for_each, lamp_name, place_name, way};
ghost use Rattle.fond_text.specs.Text.{Adds};
ghost use Rattle.std.specs.Prelude.{◌≡◌, ◌≤◌, ◌<◌, ◌+◌, ◌++◌, length, IfOk};

use crate::words::draw_words;
use fond_text::fault::NoMemory;
use fond_text::text::Text;
use std::alloc::Global;

/// The most lamps.
const LAMPS: u64 = 12;

/// Adds the name of a place, after a space.
fn put_place(number: u64, text: &mut Text)
    ensures { Adds text.old text.new (place_name number) }
{
    text.add(b" p");
    text.add_number(number);
}

/// Adds the name of a lamp, after a space.
fn put_lamp(number: u64, text: &mut Text)
    ensures { Adds text.old text.new (lamp_name number) }
{
    text.add(b" l");
    text.add_number(number);
}

/// Adds the way from a place to the next one.
fn put_way(words: &[u32], number: u64, text: &mut Text)
    requires { number < length words.now }
    ensures { Adds text.old text.new (way words.now number) }
{
    let front = if words[number as usize] % 2 == 1 {
        b" (easy"
    } else {
        b" (hard"
    };
    text.add(front);
    put_place(number, text);
    put_place(number + 1, text);
    text.add(b")");
}

/// Adds the names of the places from 0 to the size.
fn put_places(size: u64, text: &mut Text)
    requires { size ≤ 100 }
    ensures { Adds text.old text.new (for_each (size + 1) place_name) }
{
    for number in 0..size + 1 {
        put_place(number, text);
    }
}

/// Adds the names of this many lamps.
fn put_lamps(count: u64, text: &mut Text)
    ensures { Adds text.old text.new (for_each count lamp_name) }
{
    for number in 0..count {
        put_lamp(number, text);
    }
}

/// Adds the ways by these words.
fn put_ways(words: &[u32], size: u64, text: &mut Text)
    requires { size ≡ length words.now }
    ensures { Adds text.old text.new (for_each size (way words.now)) }
{
    for number in 0..size {
        put_way(words, number, text);
    }
}

/// Adds the objects of the problem, with what stands before them.
fn put_objects(size: u64, text: &mut Text)
    requires { size ≤ 100 }
    ensures { Adds text.old text.new (demo_objects size) }
{
    text.add(b"(define (problem demo) (:domain demo) (:objects");
    put_places(size, text);
    text.add(b" - place");
    put_lamps(size.min(LAMPS), text);
}

/// Adds the text of the problem of this size, by its words.
fn put_problem(words: &[u32], size: u64, text: &mut Text)
    requires few { size ≤ 100 }
    requires words { words.now ≡ drawn_words size size }
    ensures { Adds text.old text.new (demo_problem size) }
{
    put_objects(size, text);
    text.add(b" - lamp) (:init (at p0)");
    put_ways(words, size, text);
    text.add(b") (:goal (at");
    put_place(size, text);
    text.add(b")))\n");
}

/// The text of the problem of this size.
pub(crate) fn problem_text(alloc: Global, size: u64) -> Result<Vec<u8>, NoMemory>
    requires { size ≤ 100 }
    ensures { IfOk result (λ text. text.items ≡ demo_problem size) }
{
    let words = draw_words(alloc, size, size as u32)?;
    let mut text = Text::new(alloc);
    put_problem(&words, size, &mut text);
    text.finish()
}
