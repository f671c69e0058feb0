//! The arms of a definition.

ghost use Rattle.std.specs.Prelude.{◌≡◌, ◌⊎◌, IfSome, Some};
ghost use Rattle.rust_trees.specs.Forests.{IsPair};
ghost use Rattle.format_calls.specs.declared.table.Rule.{Rule};
ghost use Rattle.macro_owners.specs.Arms.{IsArm, IsEmpty, IsReadAs, Says, shifted};

use crate::lefts::argument_count;
use crate::rights::{Right, is_first_or_same, rule_of_right};
use format_calls::{Call, Rule, closing_token, is_mark};
use rust_trees::Source;

/// An arm, `(left) => {right}`: the indexes of its delimiters.
#[derive(Clone, Copy)]
pub struct Arm {
    /// The delimiter that opens the left side.
    pub left_opening: usize,
    /// The one that closes it. `=` and `>` follow, and the one that opens the right side.
    pub left_close: usize,
    /// The one that closes the right side.
    pub right_close: usize,
}

/// Returns the arm that starts at a token, or `None` if none does.
fn arm_at(source: &Source<'_>, index: usize) -> Option<Arm>
    ensures { IfSome result (λ a. IsArm source.now index a) }
{
    let tokens = source.tokens();
    let left_close = closing_token(source, index)?;
    if !(is_mark(tokens, left_close + 1, b'=') && is_mark(tokens, left_close + 2, b'>')) {
        return None;
    }
    let right_close = closing_token(source, left_close + 3)?;
    Some(Arm {
        left_opening: index,
        left_close,
        right_close,
    })
}

/// Returns the rule of a macro that takes arguments and hands on the tokens after them to a macro
/// of a rule, or `None` if that is no rule.
fn shifted(rule: Rule, count: usize) -> Option<Rule>
    ensures { result ≡ shifted rule count }
{
    match rule {
        Rule::Index(index) => Some(Rule::Index(index.checked_add(count)?)),
        Rule::IndexByEdition(index) => Some(Rule::IndexByEdition(index.checked_add(count)?)),
        Rule::FirstLiteral if count == 0 => Some(Rule::FirstLiteral),
        _ => None,
    }
}

/// Returns the rule by which an arm reads its tokens, or `None` if it is not of this form.
fn rule_of_arm(source: &Source<'_>, calls: &[Call], arm: Arm) -> Option<Rule>
    requires { IsArm source.now arm.left_opening arm }
    ensures { IfSome result (λ r. IsReadAs calls.now source.now arm r) }
{
    let tokens = source.tokens();
    let count = argument_count(tokens, arm.left_opening + 1, arm.left_close)?;
    let right = Right {
        variable: arm.left_close - 5,
        start: arm.left_close + 4,
        end: arm.right_close,
    };
    let rule = rule_of_right(tokens, calls, right)?;
    shifted(rule, count)
}

/// Returns the rule that was found in arms so far with one arm more, or `None` if that reads its
/// tokens by no rule or another one. An arm that takes no tokens changes nothing.
fn joined_rule(
    source: &Source<'_>,
    calls: &[Call],
    found: Option<Rule>,
    arm: Arm,
) -> Option<Option<Rule>>
    requires { IsArm source.now arm.left_opening arm }
    ensures { IfSome result (λ f. (IsEmpty arm × (f ≡ found)) ⊎ ((r : Rule) × (f ≡ Some r)
        × IsReadAs calls.now source.now arm r × IfSome found (λ s. s ≡ r))) }
{
    if arm.left_close <= arm.left_opening + 1 {
        return Some(found);
    }
    let rule = rule_of_arm(source, calls, arm)?;
    if is_first_or_same(found, rule) {
        Some(Some(rule))
    } else {
        None
    }
}

/// Returns the rule by which each arm between two delimiters reads its tokens, or `None` if there
/// is none.
pub fn rule_of_arms(
    source: &Source<'_>,
    calls: &[Call],
    opening: usize,
    close: usize,
) -> Option<Rule>
    requires { IsPair source.now opening close }
    ensures { IfSome result (λ r. Says calls.now source.now opening close r) }
{
    let tokens = source.tokens();
    let mut found = None;
    let mut from = opening + 1;
    while from < close {
        let arm = arm_at(source, from)?;
        if arm.right_close >= close {
            return None;
        }
        found = joined_rule(source, calls, found, arm)?;
        if arm.right_close + 1 == close {
            return found;
        }
        if !is_mark(tokens, arm.right_close + 1, b';') {
            return None;
        }
        from = arm.right_close + 2;
    }
    found
}
