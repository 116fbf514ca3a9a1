//! Orientation (Baader and Nipkow, 7.1).

ghost use Rattle.path_order.specs.Extension.{Extends};
ghost use Rattle.path_order.specs.OrientFaultView.{IsFaultAt, IsOrientFault};
ghost use Rattle.path_order.specs.PrecedenceView.{precedence_of};
ghost use Rattle.path_order.specs.RewritingEnd.{RewritingEndsBy};
ghost use Rattle.path_order.specs.RuleSides.{AreRulesOver};
ghost use Rattle.path_order.specs.RuleView.{numbered_rules};
ghost use Rattle.path_order.specs.RulesView.{
  plain_rules_in,
  precedence_in,
  rules_in,
  signature_in,
};
ghost use Rattle.sort_terms.specs.EquationView.{IsSortedFlat, data_of, equation_of};
ghost use Rattle.sort_terms.specs.SignatureView.{signature_of};
ghost use Rattle.std.specs.Prelude.{◌≡◌, IfOk, MatchResult, map};
ghost use Rattle.rewriting_theory.specs.Orientation.{GiveRules, IsOrientation};

use crate::orient_fault::OrientFault;
use crate::precedence::Precedence;
use crate::rule::{Rule, with_rule};
use crate::rules::Rules;
use crate::turning::{Turn, turn_of};
use sort_terms::{Equation, Flat};
use std::alloc::Global;

/// The rules of the data: each equation turned toward its smaller side, in the order of the
/// equations; an equation with identical sides gives none. `Unorientable` comes exactly at the
/// first equation whose sides differ and of which neither is greater. No chain of rewriting from a
/// term by the rules exceeds some number, and none of rewriting and of steps into arguments does.
/// Data of 2^32 equations or more answer as where memory is missing.
pub fn orient(flat: &Flat, precedence: Precedence) -> Result<Rules, OrientFault>
    requires { IsSortedFlat flat.now }
    ensures rules { IfOk result (λ rules. IsOrientation (precedence_of precedence)
        (data_of flat.now) (rules_in rules)) }
    ensures precedence { IfOk result (λ rules. precedence_in rules ≡ precedence_of precedence) }
    ensures signature { IfOk result
        (λ rules. signature_in rules ≡ signature_of flat.now.signature) }
    ensures unorientable { MatchResult result (λ rules. Unit {0})
        (λ fault. IsOrientFault (precedence_of precedence) (data_of flat.now).equations fault) }
    ensures ends { IfOk result (λ rules. RewritingEndsBy (plain_rules_in rules)) }
{
    let rules = turned(flat, &precedence)?;
    Ok(Rules::of(flat.signature.copy()?, precedence, rules)?)
}

// The rules of the equations.
fn turned(flat: &Flat, precedence: &Precedence) -> Result<Vec<Rule>, OrientFault>
    requires { IsSortedFlat flat.now }
    ensures rules { MatchResult result
        (λ rules. GiveRules (precedence_of precedence.now) 0 (data_of flat.now).equations
        (numbered_rules rules.items))
        (λ fault. IsOrientFault (precedence_of precedence.now) (data_of flat.now).equations
        fault) }
    ensures over { IfOk result
        (λ rules. AreRulesOver (signature_of flat.now.signature) rules.items) }
{
    let alloc = *flat.equations.allocator();
    if flat.equations.len() > u32::MAX as usize {
        return Err(OrientFault::NoMemory);
    }
    let mut rules = Vec::new(alloc);
    for number in 0..flat.equations.len() {
        rules = extended(
            alloc,
            precedence,
            &flat.equations[number],
            number as u32,
            rules,
        )?;
    }
    Ok(rules)
}

// The rules with that of one more equation, which has this number.
fn extended(
    alloc: Global,
    precedence: &Precedence,
    equation: &Equation,
    number: u32,
    rules: Vec<Rule>,
) -> Result<Vec<Rule>, OrientFault>
    ensures { MatchResult result
        (λ more. Extends (precedence_of precedence.now) number (equation_of equation.now)
        equation.now (numbered_rules rules.items) (numbered_rules more.items) rules.items
        more.items)
        (λ fault. IsFaultAt (precedence_of precedence.now) number (equation_of equation.now)
        fault) }
{
    match turn_of(alloc, precedence, &equation.left, &equation.right)? {
        Turn::Identical => Ok(rules),
        Turn::Forward => Ok(with_rule(rules, number, &equation.left, &equation.right)?),
        Turn::Backward => Ok(with_rule(rules, number, &equation.right, &equation.left)?),
        Turn::Neither => Err(OrientFault::Unorientable { equation: number }),
    }
}
