//! Printing a certificate or a certificate of least rank, into a sink or as a text. Loops over parts end as soon as the destination
//! has failed.

ghost use Rattle.fond_policy.specs.Belongs.{Belongs, BelongsAsBest};
ghost use Rattle.fond_cert.specs.Items.{IsPairOf, IsRuleOf};
ghost use Rattle.fond_cert.specs.Printed.{far_text, fed, layer_text};
ghost use Rattle.fond_cert.specs.Spellings.{best_spelling, end_line, item_line, pair_line, ranked_line, rule_line, spelling};
ghost use Rattle.fond_edge.specs.Faults.{Rose};
ghost use Rattle.fond_edge.specs.Pens.{flow, IsPut, IsLost};
ghost use Rattle.fond_edge.specs.Written.{Appended, AppendedPart};
ghost use Rattle.std.specs.Prelude.{◌≡◌, ◌≤◌, IfOk, OnOk, OnErr};

use crate::field::{Datum, put_line};
use crate::listing::{Listing, put_all};
use fond_edge::pen::Pen;
use fond_edge::send::WriteFault;
use fond_edge::sink::Sink;
use fond_edge::writer::Writer;
use fond_form::table::LineKind;
use fond_layers::layers::{Layer, Layers};
use fond_policy::best::{BestCert, Ranks};
use fond_policy::cert::Cert;
use fond_policy::item::{Item, Way};
use fond_policy::items::Items;
use fond_rules::pairs::Pairs;
use fond_rules::rules::Rules;
use fond_state::cube::Cube;
use fond_task::rule::{Pair, Rule, Targets};
use fond_task::task::Task;
use fond_text::fault::NoMemory;
use fond_text::out::Out;
use fond_text::text::Text;
use std::alloc::Global;

impl Listing for Layer {
    ghost use Rattle.std.specs.Prelude.{◌^◌, ⊤};
    ghost use Rattle.fond_cert.specs.Printed.{fed};
    ghost use Rattle.fond_cert.specs.Spellings.{cube_line};

    type Item = Cube;

    ghost items = { λ cubes. cubes };

    ghost limit = { 2 ^ 64 };

    ghost fits = { λ task cube. ⊤ };

    ghost text = { λ task cube. fed (cube_line task cube) };

    fn count(&self) -> u64 {
        self.len() as u64
    }

    fn put_at<O: Out>(&self, task: &Task, i: u64, out: &mut O) {
        let cube = &self.as_slice()[i as usize];
        put_line(task, LineKind::Cube, &[Datum::Cube(cube)], out);
    }
}

/// Adds the lines of a layer.
fn put_layer<O: Out>(task: &Task, layer: &Layer, out: &mut O)
    ensures { O.adds out.old out.new (layer_text task.now layer.now) }
{
    put_line(task, LineKind::Layer, &[Datum::Nothing], out);
    put_all(task, layer, out);
}

impl Listing for Layers {
    ghost use Rattle.std.specs.Prelude.{◌^◌, ⊤};
    ghost use Rattle.fond_cert.specs.Printed.{layer_text};

    type Item = Layer;

    ghost items = { λ layers. layers };

    ghost limit = { 2 ^ 32 };

    ghost fits = { λ task layer. ⊤ };

    ghost text = { layer_text };

    fn count(&self) -> u64 {
        self.len() as u64
    }

    fn put_at<O: Out>(&self, task: &Task, i: u64, out: &mut O) {
        put_layer(task, self.get(i as u32), out);
    }
}

/// Adds the line of a pair.
fn put_pair<O: Out>(task: &Task, pair: &Pair, out: &mut O)
    requires { IsPairOf task.now pair.now }
    ensures { O.adds out.old out.new (fed (pair_line task.now pair.now)) }
{
    let values = [
        Datum::Act(pair.act),
        Datum::Number(pair.outcome as u64),
        Datum::Number(pair.layer as u64),
        Datum::Number(pair.cube as u64),
        Datum::Cube(&pair.cond),
    ];
    put_line(task, LineKind::Pair, &values, out);
}

impl Listing for Pairs {
    ghost use Rattle.std.specs.Prelude.{◌^◌};
    ghost use Rattle.fond_cert.specs.Printed.{fed};
    ghost use Rattle.fond_cert.specs.Spellings.{pair_line};
    ghost use Rattle.fond_cert.specs.Items.{IsPairOf};

    type Item = Pair;

    ghost items = { λ pairs. pairs };

    ghost limit = { 2 ^ 64 };

    ghost fits = { IsPairOf };

    ghost text = { λ task pair. fed (pair_line task pair) };

    fn count(&self) -> u64 {
        self.len()
    }

    fn put_at<O: Out>(&self, task: &Task, i: u64, out: &mut O) {
        put_pair(task, self.get(i), out);
    }
}

/// Adds the line of a rule.
fn put_rule<O: Out>(task: &Task, rule: &Rule, out: &mut O)
    requires { IsRuleOf task.now rule.now }
    ensures { O.adds out.old out.new (fed (rule_line task.now rule.now)) }
{
    let act = Datum::Act(rule.act);
    let cond = Datum::Cube(&rule.cond);
    match &rule.targets {
        Targets::One { outcome, target } => {
            let outcome = Datum::Number(*outcome as u64);
            let values = [act, outcome, Datum::Target(*target), cond];
            put_line(task, LineKind::FairRule, &values, out);
        }
        Targets::All(targets) => {
            let values = [act, Datum::Targets(targets), cond];
            put_line(task, LineKind::UnfairRule, &values, out);
        }
    }
}

impl Listing for Rules {
    ghost use Rattle.std.specs.Prelude.{◌^◌};
    ghost use Rattle.fond_cert.specs.Printed.{fed};
    ghost use Rattle.fond_cert.specs.Spellings.{rule_line};
    ghost use Rattle.fond_cert.specs.Items.{IsRuleOf};

    type Item = Rule;

    ghost items = { λ rules. rules };

    ghost limit = { 2 ^ 32 };

    ghost fits = { IsRuleOf };

    ghost text = { λ task rule. fed (rule_line task rule) };

    fn count(&self) -> u64 {
        self.len() as u64
    }

    fn put_at<O: Out>(&self, task: &Task, i: u64, out: &mut O) {
        put_rule(task, self.get(i as u32), out);
    }
}

/// Adds the line of an item.
fn put_item<O: Out>(task: &Task, item: &Item, out: &mut O)
    ensures { O.adds out.old out.new (fed (item_line task.now item.now)) }
{
    let cube = Datum::Cube(&item.cube);
    match &item.way {
        Way::Goal => put_line(task, LineKind::GoalItem, &[cube], out),
        Way::Rule { rule, items } => {
            let values = [Datum::Number(*rule as u64), Datum::Numbers(items), cube];
            put_line(task, LineKind::RuleItem, &values, out);
        }
    }
}

impl Listing for Items {
    ghost use Rattle.std.specs.Prelude.{◌^◌, ⊤};
    ghost use Rattle.fond_cert.specs.Printed.{fed};
    ghost use Rattle.fond_cert.specs.Spellings.{item_line};

    type Item = Item;

    ghost items = { λ items. items };

    ghost limit = { 2 ^ 32 };

    ghost fits = { λ task item. ⊤ };

    ghost text = { λ task item. fed (item_line task item) };

    fn count(&self) -> u64 {
        self.len() as u64
    }

    fn put_at<O: Out>(&self, task: &Task, i: u64, out: &mut O) {
        put_item(task, self.get(i as u32), out);
    }
}

/// Adds the line of an item with its rank, which is not written for an item of goals.
fn put_ranked<O: Out>(task: &Task, item: &Item, rank: u64, out: &mut O)
    ensures { O.adds out.old out.new (fed (ranked_line task.now (item.now, rank))) }
{
    let cube = Datum::Cube(&item.cube);
    match &item.way {
        Way::Goal => put_line(task, LineKind::GoalItem, &[cube], out),
        Way::Rule { rule, items } => {
            let rule = Datum::Number(*rule as u64);
            let values = [rule, Datum::Number(rank), Datum::Numbers(items), cube];
            put_line(task, LineKind::RankedItem, &values, out);
        }
    }
}

/// Items with their ranks.
#[derive(Drop)]
struct Ranked<'a> {
    items: &'a Items,
    ranks: &'a Ranks,
}

impl<'a> Listing for Ranked<'a> {
    ghost use Rattle.std.specs.List.{zip};
    ghost use Rattle.std.specs.Prelude.{◌^◌, ⊤};
    ghost use Rattle.fond_cert.specs.Printed.{fed};
    ghost use Rattle.fond_cert.specs.Spellings.{ranked_line};

    type Item = (Item, u64);

    ghost items = { λ list. zip list.items.now list.ranks.now };

    ghost limit = { 2 ^ 32 };

    ghost fits = { λ task entry. ⊤ };

    ghost text = { λ task entry. fed (ranked_line task entry) };

    fn count(&self) -> u64 {
        let ranks = self.ranks.len() as u64;
        ranks.min(self.items.len() as u64)
    }

    fn put_at<O: Out>(&self, task: &Task, i: u64, out: &mut O) {
        let rank = *self.ranks.get(i as usize);
        put_ranked(task, self.items.get(i as u32), rank, out);
    }
}

/// Adds the lines of a far list.
fn put_far<O: Out>(task: &Task, list: &Layer, out: &mut O)
    ensures { O.adds out.old out.new (far_text task.now list.now) }
{
    put_line(task, LineKind::Far, &[Datum::Nothing], out);
    put_all(task, list, out);
}

/// Lists of far cubes.
#[derive(Drop)]
struct FarLists<'a> {
    lists: &'a Layers,
}

impl<'a> Listing for FarLists<'a> {
    ghost use Rattle.std.specs.Prelude.{◌^◌, ⊤};
    ghost use Rattle.fond_cert.specs.Printed.{far_text};

    type Item = Layer;

    ghost items = { λ far. far.lists.now };

    ghost limit = { 2 ^ 32 };

    ghost fits = { λ task list. ⊤ };

    ghost text = { far_text };

    fn count(&self) -> u64 {
        self.lists.len() as u64
    }

    fn put_at<O: Out>(&self, task: &Task, i: u64, out: &mut O) {
        put_far(task, self.lists.get(i as u32), out);
    }
}

/// Adds the last line.
fn put_end<O: Out>(task: &Task, out: &mut O)
    ensures { O.adds out.old out.new (fed (end_line task.now)) }
{
    put_line(task, LineKind::End, &[Datum::Nothing], out);
}

/// Adds the lines of a certificate.
fn put_lines<O: Out>(task: &Task, cert: &Cert, out: &mut O)
    requires { Belongs task.now cert.now }
    ensures { O.adds out.old out.new (spelling task.now cert.now) }
{
    match cert {
        Cert::Policy {
            layers,
            pairs,
            rules,
            reach,
        } => {
            put_line(task, LineKind::PolicyHeader, &[Datum::Nothing], out);
            put_all(task, layers, out);
            put_all(task, pairs, out);
            put_all(task, rules, out);
            put_line(task, LineKind::Reach, &[Datum::Number(*reach)], out);
            put_end(task, out);
        }
        Cert::Refusal { layers } => {
            put_line(task, LineKind::RefusalHeader, &[Datum::Nothing], out);
            put_all(task, layers, out);
            put_end(task, out);
        }
        Cert::Covered {
            layers,
            pairs,
            rules,
            items,
            start,
        } => {
            put_line(task, LineKind::CoverHeader, &[Datum::Nothing], out);
            put_all(task, layers, out);
            put_all(task, pairs, out);
            put_all(task, rules, out);
            put_all(task, items, out);
            put_line(task, LineKind::Start, &[Datum::Number(*start as u64)], out);
            put_end(task, out);
        }
    }
}

/// Puts the text of a certificate into a pen, in pieces, or tells that the pen has failed. Takes time in the length of the text, and in
/// the number of the task's atoms for each cube, pair, rule and item; no memory.
pub fn send_cert<K: Sink>(
    task: &Task,
    cert: &Cert,
    pen: &mut Pen,
    sink: &mut K,
) -> Result<(), WriteFault>
    requires { Belongs task.now cert.now }
    ensures ok { OnOk result (IsPut (flow (K.written sink.old) (K.faults sink.old) pen.old)
        (flow (K.written sink.new) (K.faults sink.new) pen.new) (spelling task.now cert.now)) }
    ensures err { OnErr result (IsLost (flow (K.written sink.old) (K.faults sink.old) pen.old)
        (flow (K.written sink.new) (K.faults sink.new) pen.new) (spelling task.now cert.now)) }
{
    let mut out = Writer { pen, sink };
    put_lines(task, cert, &mut out);
    if out.has_failed() {
        return Err(WriteFault);
    }
    Ok(())
}

/// Writes the text of a certificate, as `send_cert` puts it into a pen, or fails after a proper prefix of it. It takes no memory.
pub fn write_cert<K: Sink>(task: &Task, cert: &Cert, sink: &mut K) -> Result<(), WriteFault>
    requires { Belongs task.now cert.now }
    ensures ok { OnOk result (Appended (K.written sink.old) (K.written sink.new) (spelling task.now cert.now)) }
    ensures part { OnErr result (AppendedPart (K.written sink.old) (K.written sink.new) (spelling task.now cert.now)) }
    ensures counted { K.faults sink.old ≤ K.faults sink.new }
    ensures rose { OnErr result (Rose (K.faults sink.old) (K.faults sink.new)) }
{
    let mut pen = Pen::new();
    send_cert(task, cert, &mut pen, sink)?;
    pen.finish(sink)
}

/// The text of a certificate. Takes time in the length of the text, and in the number of the task's atoms for each cube, pair,
/// rule and item; no memory but for the text.
pub fn print_cert(alloc: Global, task: &Task, cert: &Cert) -> Result<Vec<u8>, NoMemory>
    requires { Belongs task.now cert.now }
    ensures { IfOk result (λ text. text.items ≡ spelling task.now cert.now) }
{
    let mut text = Text::new(alloc);
    put_lines(task, cert, &mut text);
    text.finish()
}

/// Adds the lines of a certificate of least rank.
fn put_best<O: Out>(task: &Task, cert: &BestCert, out: &mut O)
    requires { BelongsAsBest task.now cert.now }
    ensures { O.adds out.old out.new (best_spelling task.now cert.now) }
{
    let items = Ranked {
        items: &cert.items,
        ranks: &cert.ranks,
    };
    let far = FarLists { lists: &cert.far };
    put_line(task, LineKind::BestHeader, &[Datum::Nothing], out);
    put_all(task, &cert.layers, out);
    put_all(task, &cert.rules, out);
    put_all(task, &items, out);
    put_line(
        task,
        LineKind::Start,
        &[Datum::Number(cert.start as u64)],
        out,
    );
    put_all(task, &far, out);
    put_end(task, out);
}

/// Puts the text of a certificate of least rank into a pen, in pieces, or tells that the pen has failed. Takes time in the length of
/// the text, and in the number of the task's atoms for each cube, rule and item; no memory.
pub fn send_best<K: Sink>(
    task: &Task,
    cert: &BestCert,
    pen: &mut Pen,
    sink: &mut K,
) -> Result<(), WriteFault>
    requires { BelongsAsBest task.now cert.now }
    ensures ok { OnOk result (IsPut (flow (K.written sink.old) (K.faults sink.old) pen.old)
        (flow (K.written sink.new) (K.faults sink.new) pen.new) (best_spelling task.now cert.now)) }
    ensures err { OnErr result (IsLost (flow (K.written sink.old) (K.faults sink.old) pen.old)
        (flow (K.written sink.new) (K.faults sink.new) pen.new) (best_spelling task.now cert.now)) }
{
    let mut out = Writer { pen, sink };
    put_best(task, cert, &mut out);
    if out.has_failed() {
        return Err(WriteFault);
    }
    Ok(())
}

/// Writes the text of a certificate of least rank, as `send_best` puts it into a pen, or fails after a proper prefix of it. It takes no
/// memory.
pub fn write_best<K: Sink>(task: &Task, cert: &BestCert, sink: &mut K) -> Result<(), WriteFault>
    requires { BelongsAsBest task.now cert.now }
    ensures ok { OnOk result (Appended (K.written sink.old) (K.written sink.new) (best_spelling task.now cert.now)) }
    ensures part { OnErr result (AppendedPart (K.written sink.old) (K.written sink.new) (best_spelling task.now cert.now)) }
    ensures counted { K.faults sink.old ≤ K.faults sink.new }
    ensures rose { OnErr result (Rose (K.faults sink.old) (K.faults sink.new)) }
{
    let mut pen = Pen::new();
    send_best(task, cert, &mut pen, sink)?;
    pen.finish(sink)
}

/// The text of a certificate of least rank. Takes time in the length of the text, and in the number of the task's atoms for each cube,
/// rule and item; no memory but for the text.
pub fn print_best(alloc: Global, task: &Task, cert: &BestCert) -> Result<Vec<u8>, NoMemory>
    requires { BelongsAsBest task.now cert.now }
    ensures { IfOk result (λ text. text.items ≡ best_spelling task.now cert.now) }
{
    let mut text = Text::new(alloc);
    put_best(task, cert, &mut text);
    text.finish()
}
