//! Selecting rules in the states of a walk, of which each differs in few atoms from one before it.

ghost use Rattle.fond_state.specs.Cubes.{lies_in};
ghost use Rattle.std.specs.Prelude.{◌≡◌, All, length, position};

use crate::rules::Rules;
use fond_match::matcher::Matcher;
use fond_state::state::State;
use std::alloc::Global;
use std::marker::Model;

/// One of this many states is measured.
const MEASURED: u32 = 64;

/// A search that looks at no more than this is fast. With an index near a state, so is one that looks at this many times as much as one
/// for that state.
const FAST: usize = 512;

const TIMES: usize = 4;

/// What building an index takes for each rule, in looks of a search.
const PRICE: usize = 128;

/// Rules, with an index for states near one at which searches took long. Once those since the last index was built have cost
/// as much as another one does, it is built anew, near the state of the walk. The rules' own index is used where it is no
/// slower, as it mostly is: the first literals of their conditions tell rules apart unless these are drawn at random.
#[derive(Drop)]
pub struct Selector<'a> {
    alloc: Global,
    rules: &'a Rules,
    near: Matcher,
    is_near: bool,
    fast: usize,
    asked: u32,
    spent: usize,
    patience: usize,
}

impl<'a> Model for Selector<'a> {
    ghost use Rattle.std.specs.Prelude.{List, map};
    ghost use Rattle.fond_match.specs.Matchers.{IsMatcherOf};
    ghost use Rattle.fond_task.specs.declared.rule.Rule.{Rule};

    ghost Value = { List Rule };

    ghost view = { λ s. s.rules.now };

    ghost invariant = { λ s. IsMatcherOf (map (λ (rule : Rule). rule.cond) s.rules.now) s.near };
}

impl<'a> Selector<'a> {
    /// The rules, without a further index. Takes no memory.
    pub fn new(alloc: Global, rules: &'a Rules) -> Selector<'a>
        ensures { result ≡ rules.now }
    {
        Selector {
            alloc,
            rules,
            near: Matcher::new(alloc),
            is_near: false,
            fast: FAST,
            asked: 0,
            spent: 0,
            patience: 1,
        }
    }

    /// The number of the first rule whose condition holds in the state, if there is one. Takes time in the number of conditions
    /// that share their first literals with the state, or, once an index near it was built, in that of those whose literals
    /// against the one at which this was done hold in the state; times that of the atoms.
    pub fn select(&self, s: &State) -> Option<u32>
        requires { All (λ rule. length rule.cond ≡ length s.now) self.now }
        ensures { result ≡ position (λ rule. lies_in s.now rule.cond) self.now }
    {
        if !self.is_near {
            return self.rules.select(s);
        }
        let rules = self.rules;
        self.near.first(rules.items.as_slice(), s)
    }

    /// Drops the index, and waits twice as long with the next one.
    fn give_up(&mut self)
        ensures { self.new ≡ self.old }
    {
        self.near = Matcher::new(self.alloc);
        self.is_near = false;
        self.fast = FAST;
        self.spent = 0;
        self.patience = self.patience.saturating_mul(2);
    }

    /// Builds the index anew, near this state, and uses it if a search for the state looks at less than half as much as in the
    /// rules' own index.
    fn rebuild(&mut self, s: &State)
        ensures { self.new ≡ self.old }
    {
        let patience = self.patience;
        self.give_up();
        let rules = self.rules;
        if let Ok(near) = Matcher::build_near(self.alloc, rules.items.as_slice(), Some(s)) {
            let looks = near.looks(s);
            if looks < rules.looks(s) / 2 {
                self.near = near;
                self.is_near = true;
                self.fast = FAST.max(looks.saturating_mul(TIMES));
                self.patience = patience;
            }
        }
    }

    /// Notes that each of the states up to this one since the last measured one took a search so many looks, and builds the index
    /// anew once all of these cost as much.
    fn spend(&mut self, looks: usize, s: &State)
        ensures { self.new ≡ self.old }
    {
        self.spent = self
            .spent
            .saturating_add(looks.saturating_mul(MEASURED as usize));
        let cost = PRICE.saturating_mul(self.rules.len() as usize);
        if self.spent >= cost.saturating_mul(self.patience) {
            self.rebuild(s);
        }
    }

    /// Takes note that the walk is at this state. Only how fast rules are selected depends on it. Takes time in that of a search
    /// for one of 64 states, and now and then that of building an index, which is no more than searches took before. If memory runs
    /// out, the rules' own index is used.
    pub fn heed(&mut self, s: &State)
        ensures { self.new ≡ self.old }
    {
        self.asked = self.asked.wrapping_add(1);
        if self.asked % MEASURED != 0 {
            return;
        }
        let own = self.rules.looks(s);
        let looks = if self.is_near {
            self.near.looks(s)
        } else {
            own
        };
        if looks > own {
            self.give_up();
        } else if looks > self.fast {
            self.spend(looks, s);
        }
    }
}
