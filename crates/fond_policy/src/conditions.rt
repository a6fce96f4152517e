//! The conditions of rules.

ghost use Rattle.fond_policy.specs.Items.{firsts_of, AreFirstsOver, Belong, IsApart, IsFirstOn};
ghost use Rattle.fond_policy.specs.Firsts.{AreFirstConditions};
ghost use Rattle.std.specs.Prelude.{◌≡◌, true, length, Decides, IfOk};

use crate::firsts::Firsts;
use fond_matrix::matrix::Matrix;
use fond_rules::rules::Rules;
use fond_state::cube::Cube;
use fond_task::task::Task;
use fond_text::fault::NoMemory;
use std::alloc::Global;
use std::marker::Model;

/// The matrix has the conditions of so many first rules at most.
const MANY: u32 = 1 << 16;

/// The matrix has the conditions of so many first rules at most for each atom. It looks at a word for each literal of a cube and each 64
/// conditions, whatever these are, so with this bound at no more words than the square of the number of atoms. The index answers for the
/// later rules. It is far slower if the cube lacks the literals of its branches; but where there are so many rules for each atom, their
/// conditions have literals of the same few atoms, and so has a cube that contradicts them.
const MANY_EACH: u32 = 64;

/// The conditions of the first rules, as many as the matrix may have.
fn matrix_of(alloc: Global, rules: &Rules) -> Result<Matrix, NoMemory>
    ensures { IfOk result (λ matrix. AreFirstConditions matrix (firsts_of rules.now)) }
{
    let mut matrix = Matrix::new(alloc)?;
    for number in 0..rules.len().min(MANY) {
        let cond = &rules.get(number).cond;
        if (number / MANY_EACH) as usize >= cond.len() {
            return Ok(matrix);
        }
        matrix.push(cond)?;
    }
    Ok(matrix)
}

/// Whether the cube contradicts the condition of each rule before this number. Takes the time of `Matrix::first_beside`, if the matrix
/// has these conditions, and otherwise that of `Rules::first_beside`.
fn is_apart(rules: &Rules, matrix: &Matrix, rule: u32, c: &Cube) -> bool
    requires over { AreFirstsOver (length c.now) (firsts_of rules.now) }
    requires first { AreFirstConditions matrix.now (firsts_of rules.now) }
    ensures { Decides result (IsApart (firsts_of rules.now) rule c.now) }
{
    if rule <= matrix.len() {
        return matrix.first_beside(c, rule).is_none();
    }
    match rules.first_beside(c) {
        Some(first) => first >= rule,
        None => true,
    }
}

/// Whether the condition of this rule is the first on the cube. A cube that does not lie in it is found at once.
fn is_first_on(rules: &Rules, matrix: &Matrix, rule: u32, c: &Cube) -> bool
    requires over { AreFirstsOver (length c.now) (firsts_of rules.now) }
    requires first { AreFirstConditions matrix.now (firsts_of rules.now) }
    ensures { Decides result (IsFirstOn (firsts_of rules.now) rule c.now) }
{
    if rule >= rules.len() {
        return false;
    }
    rules.get(rule).cond.covers(c) && is_apart(rules, matrix, rule, c)
}

/// Whether the cube does not lie in the rule's condition, or does not contradict that of the rule `rival`, which is before it. Takes two
/// comparisons of cubes at most.
fn is_not_first(rules: &Rules, rule: u32, c: &Cube, rival: u32) -> bool
    requires { AreFirstsOver (length c.now) (firsts_of rules.now) }
    ensures { result ≡ true → ¬ IsFirstOn (firsts_of rules.now) rule c.now }
{
    if rule >= rules.len() {
        return true;
    }
    if !rules.get(rule).cond.covers(c) {
        return true;
    }
    if rival >= rule {
        return false;
    }
    !c.contradicts(&rules.get(rival).cond)
}

/// The conditions and actions of rules, which are lent, with the conditions of the first rules in a matrix.
#[derive(Drop)]
pub struct Conditions<'a> {
    rules: &'a Rules,
    matrix: Matrix,
}

impl<'a> Model for Conditions<'a> {
    ghost use Rattle.std.specs.Prelude.{List};
    ghost use Rattle.fond_policy.specs.Items.{First, firsts_of};
    ghost use Rattle.fond_policy.specs.Firsts.{AreFirstConditions};

    ghost Value = { List First };

    ghost view = { λ c. firsts_of c.rules.now };

    ghost invariant = { λ c. AreFirstConditions c.matrix (firsts_of c.rules.now) };
}

impl<'a> Conditions<'a> {
    /// The conditions and actions of these rules. Takes time and memory in the number of the rules and of the literals of their
    /// conditions; the memory is at most about that of the conditions themselves.
    pub fn new(alloc: Global, rules: &'a Rules) -> Result<Conditions<'a>, NoMemory>
        ensures { IfOk result (λ conditions. conditions ≡ firsts_of rules.now) }
    {
        let matrix = matrix_of(alloc, rules)?;
        Ok(Conditions { rules, matrix })
    }

    /// Whether these are conditions over the task's atoms, and actions of the task. Takes time in the number of rules.
    pub fn belong_to(&self, t: &Task) -> bool
        ensures { Decides result (Belong t.now self.now) }
    {
        self.rules.belong_to(t)
    }
}

impl<'a> Firsts for Conditions<'a> {
    ghost firsts = { λ conditions. conditions };

    fn act(&self, rule: u32) -> Option<u32> {
        if rule >= self.rules.len() {
            return None;
        }
        Some(self.rules.get(rule).act)
    }

    fn first_on(&self, rule: u32, c: &Cube) -> bool {
        is_first_on(self.rules, &self.matrix, rule, c)
    }

    fn is_beaten(&self, rule: u32, c: &Cube, rival: u32) -> bool {
        is_not_first(self.rules, rule, c, rival)
    }

    fn find_rivals(&self, rule: u32, c: &Cube, rivals: &mut [u32]) {
        if rule > self.matrix.len() || rivals.len() != c.len() {
            return;
        }
        self.matrix.find_rivals(c, rule, rivals);
    }
}
