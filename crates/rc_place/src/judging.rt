//! The rules as a table, and the judge that tests them in its order.

ghost use Rattle.std.specs.Prelude.{◌≡◌, ◌<◌, ◌↔◌, IsTrue, map};
ghost use Rattle.rc_spec.specs.Acceptance.{AreOfKind, IsKept, Keeps, checks, count_of, item_checks, kind_of, step, step_checks, steps};
ghost use Rattle.rc_spec.specs.First.{Judges};
ghost use Rattle.rc_spec.specs.InRange.{IsWellFormed};

use crate::adequacy::{keeps_a3, keeps_a4, keeps_a5, keeps_a6, keeps_a7};
use crate::ops::{keeps_o1, keeps_o2, keeps_o3};
use crate::placement::{keeps_p1, keeps_p2, keeps_p3, keeps_p4, keeps_p5, keeps_p6};
use rc_graph::{keeps_a1, keeps_a2};
use rc_spec::{Item, ItemKind, Refusal, Rule, Spec};

/// Some rules of one kind of item, tested item by item.
#[derive(Clone, Copy, Debug)]
struct Step {
    kind: ItemKind,
    rules: &'static [Rule],
}

impl Step {
    fn new(kind: ItemKind, rules: &'static [Rule]) -> Step
        ensures { step result.kind result.rules.now ≡ step kind rules.now }
    {
        Step { kind, rules }
    }
}

/// The table of acceptance: the steps in order. A refusal is for the first rule that fails in it.
fn steps() -> [Step; 11]
    ensures { map (λ s. step s.kind s.rules.now) result ≡ steps }
{
    use ItemKind::*;
    use Rule::*;
    [
        Step::new(Node, &[A1]),
        Step::new(Node, &[A2]),
        Step::new(Edge, &[A3, A4, A5, A6]),
        Step::new(Column, &[A7]),
        Step::new(Edge, &[P1]),
        Step::new(Edge, &[P2]),
        Step::new(Edge, &[P3]),
        Step::new(Lock, &[P4]),
        Step::new(Edge, &[P5]),
        Step::new(Lock, &[P6]),
        Step::new(Operation, &[O1, O2, O3]),
    ]
}

/// Whether the item with this number keeps the rule.
fn keeps(spec: &Spec, rule: Rule, number: u8) -> bool
    requires formed { IsWellFormed spec.now }
    requires known { number < count_of spec.now (kind_of rule) }
    ensures { IsTrue result ↔ Keeps spec.now rule number }
{
    match rule {
        Rule::A1 => keeps_a1(spec, number),
        Rule::A2 => keeps_a2(spec, number),
        Rule::A3 => keeps_a3(spec, spec.edge(number)),
        Rule::A4 => keeps_a4(spec, spec.edge(number)),
        Rule::A5 => keeps_a5(spec, spec.edge(number)),
        Rule::A6 => keeps_a6(spec, number),
        Rule::A7 => keeps_a7(spec, number),
        Rule::P1 => keeps_p1(spec, number),
        Rule::P2 => keeps_p2(spec, number),
        Rule::P3 => keeps_p3(spec, number),
        Rule::P4 => keeps_p4(spec.class(number)),
        Rule::P5 => keeps_p5(spec, number),
        Rule::P6 => keeps_p6(spec, number),
        Rule::O1 => keeps_o1(spec.op(number)),
        Rule::O2 => keeps_o2(spec, spec.op(number)),
        Rule::O3 => keeps_o3(spec, spec.op(number)),
    }
}

/// Tests the item with this number by some rules of its kind, one after another.
fn judge_item(spec: &Spec, kind: ItemKind, rules: &[Rule], number: u8) -> Result<(), Refusal>
    requires formed { IsWellFormed spec.now }
    requires known { number < count_of spec.now kind }
    requires of_kind { AreOfKind (step kind rules.now) }
    ensures { Judges (IsKept spec.now) (item_checks (step kind rules.now) number) result }
{
    for rule in rules {
        if !keeps(spec, *rule, number) {
            let item = Item::new(kind, number);
            return Err(Refusal { rule: *rule, item });
        }
    }
    Ok(())
}

/// Tests all items of a kind by some rules, item by item.
fn judge_items(spec: &Spec, kind: ItemKind, rules: &[Rule]) -> Result<(), Refusal>
    requires formed { IsWellFormed spec.now }
    requires of_kind { AreOfKind (step kind rules.now) }
    ensures { Judges (IsKept spec.now) (step_checks spec.now (step kind rules.now)) result }
{
    for number in 0..spec.count_of(kind) {
        judge_item(spec, kind, rules, number)?;
    }
    Ok(())
}

/// Tests a specification by all rules, in the order of the steps. Takes no memory.
pub fn judge(spec: &Spec) -> Result<(), Refusal>
    requires formed { IsWellFormed spec.now }
    ensures { Judges (IsKept spec.now) (checks spec.now) result }
{
    let steps = steps();
    for step in &steps {
        judge_items(spec, step.kind, step.rules)?;
    }
    Ok(())
}
