//! The test whether a pair with a given condition leads into the cube that it names.

ghost use Rattle.fond_rules.specs.Targets.{LeadsInto};
ghost use Rattle.std.specs.Prelude.{◌≡◌, length, Decides};

use crate::lean::Test;
use fond_state::cube::Cube;
use fond_task::image::image_of;
use fond_task::task::Task;

/// The test whether a pair leads into the cube that it names, `dead`, with any condition. A pair is its condition, an action and an
/// outcome, and the numbers by which it names the cube.
#[derive(Drop)]
pub struct PairTest<'a> {
    pub task: &'a Task,
    pub dead: &'a Cube,
    pub act: u32,
    pub outcome: u32,
    pub layer: u32,
    pub cube: u32,
    pub ghost dead_over: { length dead.now ≡ length task.now.atoms },
}

impl<'a> PairTest<'a> {
    /// Whether the pair with this condition leads into the cube.
    fn leads_into(&self, cond: &Cube, image: &mut Cube) -> bool
        requires cond_long { length cond.now ≡ length self.now.task.now.atoms }
        requires long { length image.old ≡ length self.now.task.now.atoms }
        ensures same_length { length image.new ≡ length image.old }
        ensures decides { Decides result (LeadsInto self.now.task.now self.now.dead.now (record { cond = cond.now; act = self.now.act; outcome = self.now.outcome; layer = self.now.layer; cube = self.now.cube })) }
    {
        if self.act as usize >= self.task.acts.len() {
            return false;
        }
        let act = self.task.acts.get(self.act as usize);
        if self.outcome as usize >= act.outcomes.len() {
            return false;
        }
        image_of(cond, act.outcomes.get(self.outcome as usize), image);
        self.dead.covers(image)
    }
}

impl<'a> Test for PairTest<'a> {
    ghost use Rattle.fond_task.proofs.CubeImages.{image_more};
    ghost use Rattle.fond_rules.specs.Targets.{LeadsInto};
    ghost use Rattle.std.specs.Prelude.{length};

    ghost width = { λ test. length test.task.now.atoms };

    ghost passes = { λ test cond. LeadsInto test.task.now test.dead.now (record { cond = cond; act = test.act; outcome = test.outcome; layer = test.layer; cube = test.cube }) };

    ghost grows = { λ test cond more long lies leads. record { act = leads.act; has_act = leads.has_act; outcome = leads.outcome; has_outcome = leads.has_outcome; leads = λ atom sign is. image_more cond more lies leads.outcome long atom sign (leads.leads atom sign is) } };

    fn passes(&self, cond: &Cube, image: &mut Cube) -> bool {
        self.leads_into(cond, image)
    }
}
