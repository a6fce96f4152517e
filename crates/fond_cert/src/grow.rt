//! Adding what a line makes to a draft. Beside the time and memory that reading the line takes, a call takes the time and
//! memory of adding one item to a list.

ghost use Rattle.fond_cert.specs.Drafts.{closed, with_entry, with_cube, with_goal_item, grown, CanClose, IsGrown, HasRoom};
ghost use Rattle.fond_cert.specs.Filled.{Hold};
ghost use Rattle.fond_cert.specs.Made.{IsRefusedBy};
ghost use Rattle.fond_cert.specs.Refusals.{LineRefuses};
ghost use Rattle.fond_cert.specs.Spellings.{Meanings, AreOfTask, all_layers, no_parts};
ghost use Rattle.fond_cert.specs.declared.due.Group.TheVariants as g;
ghost use Rattle.fond_form.specs.Forms.{form, HasForm};
ghost use Rattle.fond_form.specs.declared.table.LineKind.TheVariants as k;
ghost use Rattle.fond_task.specs.declared.task.Task.{Task};
ghost use Rattle.fond_task.specs.Layers.{CubeView};
ghost use Rattle.std.specs.Prelude.{◌≡◌, ◌<◌, ◌-◌, ◌^◌, List, [], ◌∷◌, ◌++◌, length, None, Some, All, IfErr, OnOk};

use crate::draft::Draft;
use crate::due::Group;
use crate::error::LineError;
use crate::item::{
    cube_of, fair_of, goal_item_of, pair_of, ranked_item_of, row_of, rule_item_of, unfair_of,
};
use crate::ranked::RankedItems;
use crate::reading::read_line;
use crate::task_index::TaskIndex;
use crate::values::LineValues;
use fond_form::table::LineKind;
use fond_layers::layers::{Layer, Layers};
use fond_policy::item::Item;
use fond_policy::items::Items;
use fond_rules::pairs::Pairs;
use fond_rules::rules::Rules;
use fond_rules::table::{Table, TableRow};
use fond_state::cube::Cube;
use fond_task::rule::{Pair, Rule};
use fond_text::fault::NoMemory;
use std::alloc::Global;

impl Draft {
    /// A draft without parts. It takes no memory.
    pub fn new(alloc: Global) -> Draft
        ensures { result ≡ no_parts }
    {
        Draft {
            layers: Layers::new(alloc),
            current: None,
            pairs: Pairs::new(alloc),
            rules: Rules::new(alloc),
            items: Items::new(alloc),
            reach: None,
            start: None,
            rows: Table::new(alloc),
            ranked: RankedItems::new(alloc),
            far: Layers::new(alloc),
            current_far: None,
        }
    }

    /// Ends the layer and the far list whose cubes were read, if there are such.
    fn close(&mut self) -> Result<(), NoMemory>
        requires fits { CanClose self.old }
        ensures { OnOk result (self.new ≡ closed self.old) }
    {
        if let Some(layer) = self.current.take() {
            self.layers.add_raw(layer)?;
        }
        if let Some(list) = self.current_far.take() {
            self.far.add_raw(list)?;
        }
        Ok(())
    }

    /// Begins a layer.
    fn add_layer(&mut self, alloc: Global) -> Result<(), NoMemory>
        requires fits { CanClose self.old }
        ensures { OnOk result (self.new ≡ with_entry g.Layer self.old []) }
    {
        self.close()?;
        self.current = Some(Layer::new(alloc));
        Ok(())
    }

    /// Adds a cube to the layer that is being read.
    fn add_cube(&mut self, cube: Cube) -> Result<(), NoMemory>
        ensures { OnOk result (self.new ≡ with_entry g.Cube self.old cube) }
    {
        if let Some(layer) = &mut self.current {
            layer.push(cube)?;
        }
        Ok(())
    }

    /// Adds a pair.
    fn add_pair(&mut self, pair: Pair) -> Result<(), NoMemory>
        requires fits { CanClose self.old }
        ensures { OnOk result (self.new ≡ with_entry g.Pair self.old pair) }
    {
        self.close()?;
        self.pairs.push(pair)
    }

    /// Adds a rule.
    fn add_rule(&mut self, rule: Rule) -> Result<(), NoMemory>
        requires fits { CanClose self.old }
        requires room { length self.old.rules < 2 ^ 32 - 1 }
        ensures { OnOk result (self.new ≡ with_entry g.Rule self.old rule) }
    {
        self.close()?;
        self.rules.push(rule)
    }

    /// Adds an item.
    fn add_item(&mut self, item: Item) -> Result<(), NoMemory>
        requires fits { CanClose self.old }
        requires room { length self.old.items < 2 ^ 32 - 1 }
        ensures { OnOk result (self.new ≡ with_entry g.Item self.old item) }
    {
        self.close()?;
        self.items.push(item)
    }

    /// Adds the reach number.
    fn add_reach(&mut self, reach: u64) -> Result<(), NoMemory>
        requires fits { CanClose self.old }
        ensures { OnOk result (self.new ≡ with_entry g.Reach self.old reach) }
    {
        self.close()?;
        self.reach = Some(reach);
        Ok(())
    }

    /// Adds the start number.
    fn add_start(&mut self, start: u32) -> Result<(), NoMemory>
        requires fits { CanClose self.old }
        ensures { OnOk result (self.new ≡ with_entry g.Start self.old start) }
    {
        self.close()?;
        self.start = Some(start);
        Ok(())
    }

    /// Adds an item with its rank.
    fn add_ranked(&mut self, item: Item, rank: u64) -> Result<(), NoMemory>
        requires fits { CanClose self.old }
        requires room { length self.old.ranked < 2 ^ 32 - 1 }
        ensures { OnOk result (self.new ≡ with_entry g.Ranked self.old (item, rank)) }
    {
        self.close()?;
        self.ranked.push(item, rank)
    }

    /// Adds an item of goals: an item with rank 0, or an item of a certificate.
    fn add_goal_item(&mut self, group: Group, item: Item) -> Result<(), NoMemory>
        requires fits { CanClose self.old }
        requires room { HasRoom group k.GoalItem self.old }
        ensures { OnOk result (self.new ≡ with_goal_item group self.old item) }
    {
        match group {
            Group::Ranked => self.add_ranked(item, 0),
            _ => self.add_item(item),
        }
    }

    /// Begins a far list.
    fn add_far(&mut self, alloc: Global) -> Result<(), NoMemory>
        requires fits { CanClose self.old }
        ensures { OnOk result (self.new ≡ with_entry g.Far self.old []) }
    {
        self.close()?;
        self.current_far = Some(Layer::new(alloc));
        Ok(())
    }

    /// Adds a cube to the far list that is being read.
    fn add_far_cube(&mut self, cube: Cube) -> Result<(), NoMemory>
        ensures { OnOk result (self.new ≡ with_entry g.FarCube self.old cube) }
    {
        if let Some(list) = &mut self.current_far {
            list.push(cube)?;
        }
        Ok(())
    }

    /// Adds a cube to the far list or to the layer that is being read.
    fn add_cube_of(&mut self, group: Group, cube: Cube) -> Result<(), NoMemory>
        ensures { OnOk result (self.new ≡ with_cube group self.old cube) }
    {
        match group {
            Group::FarCube => self.add_far_cube(cube),
            _ => self.add_cube(cube),
        }
    }

    /// Adds a row.
    fn add_row(&mut self, row: TableRow) -> Result<(), NoMemory>
        requires fits { CanClose self.old }
        requires room { length self.old.rows < 2 ^ 32 - 1 }
        ensures { OnOk result (self.new ≡ with_entry g.Row self.old row) }
    {
        self.close()?;
        self.rows.push(row)
    }

    /// Adds what a line of the kind makes of its values.
    fn take(
        &mut self,
        alloc: Global,
        group: Group,
        kind: LineKind,
        values: &mut LineValues,
    ) -> Result<(), NoMemory>
        requires hold { (meanings : Meanings (form kind)) × Hold kind values.old meanings }
        requires room { HasRoom group kind self.old }
        requires fits { CanClose self.old }
        ensures { OnOk result ((task : Task) (meanings : Meanings (form kind)) → AreOfTask task (form kind) meanings → Hold kind values.old meanings → self.new ≡ grown group self.old kind meanings) }
    {
        match kind {
            LineKind::PolicyHeader | LineKind::RefusalHeader => self.close(),
            LineKind::CoverHeader | LineKind::TableHeader | LineKind::End => self.close(),
            LineKind::BestHeader => self.close(),
            LineKind::Layer => self.add_layer(alloc),
            LineKind::Cube => self.add_cube_of(group, cube_of(values)),
            LineKind::Pair => self.add_pair(pair_of(values)),
            LineKind::FairRule => self.add_rule(fair_of(values)),
            LineKind::UnfairRule => self.add_rule(unfair_of(alloc, values)),
            LineKind::GoalItem => self.add_goal_item(group, goal_item_of(values)),
            LineKind::RuleItem => self.add_item(rule_item_of(alloc, values)),
            LineKind::Reach => self.add_reach(values.number(0)),
            LineKind::Start => self.add_start(values.short(0)),
            LineKind::Row => self.add_row(row_of(values)),
            LineKind::RankedItem => {
                let rank = values.number(1);
                self.add_ranked(ranked_item_of(alloc, values), rank)
            }
            LineKind::Far => self.add_far(alloc),
        }
    }

    /// Adds what the line makes, which is one of the kind.
    pub fn add(
        &mut self,
        alloc: Global,
        index: &TaskIndex,
        group: Group,
        kind: LineKind,
        line: &[u8],
    ) -> Result<(), LineError>
        requires form { HasForm (form kind) line.now }
        requires room { HasRoom group kind self.old }
        requires fits { CanClose self.old }
        ensures grown { OnOk result (IsGrown index.now group kind line.now self.old self.new) }
        ensures wrong { IfErr result (LineRefuses (IsRefusedBy index.now kind line.now)) }
    {
        let mut values = LineValues::new(alloc);
        read_line(alloc, index, kind, line, &mut values)?;
        self.take(alloc, group, kind, &mut values)?;
        Ok(())
    }
}
