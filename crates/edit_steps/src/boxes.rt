//! The boxes of tools that a session is given, and which editor of a meeting gets which.
ghost use Rattle.std.specs.Prelude.{◌≡◌, ◌≤◌, ◌++◌, ◌∷◌, [], List, map, IfOk};
ghost use Rattle.tool_api.specs.declared.verb.Verb.{Verb};
ghost use Rattle.edit_history.specs.Trail.{KeepNothing};
ghost use Rattle.edit_steps.specs.Dealt.{AreDealt};
ghost use Rattle.edit_steps.specs.Needs.{count_verb};

use std::alloc::{AllocError, Global};
use tool_api::{Tool, Verb};

// The verb of a box.
fn verb_of_box(tool: &Box<dyn Tool>) -> Verb
    ensures { result ≡ kind tool.now }
{
    tool.verb()
}

// 1 if the box has the verb, and else 0.
fn has_verb(tool: &Box<dyn Tool>, verb: Verb) -> usize
    ensures count { result ≡ count_verb (kind tool.now ∷ []) verb }
    ensures most { result ≤ 1 }
{
    if verb == tool.verb() { 1 } else { 0 }
}

/// How many boxes have the verb. It looks at each.
pub fn count_boxes(tools: &Vec<Box<dyn Tool>>, verb: Verb) -> usize
    ensures { result ≡ count_verb (map (λ b. kind b) tools.now.items) verb }
{
    let mut count = 0;
    for i in 0..tools.len() {
        count += has_verb(&tools[i], verb);
    }
    count
}

/// Boxes of one editor, and those that are left for the next ones.
#[derive(Drop)]
pub struct Dealt {
    /// Of each verb the first.
    pub own: Vec<Box<dyn Tool>>,
    /// The others, in order.
    pub others: Vec<Box<dyn Tool>>,
}

/// Of each verb the first box, and the others. For each box it looks at those that the editor has.
///
/// # Errors
/// No memory was left.
pub fn deal(alloc: Global, tools: Vec<Box<dyn Tool>>) -> Result<Dealt, AllocError>
    requires dones { KeepNothing (map (λ b. done b) tools.items) }
    requires undones { KeepNothing (map (λ b. undone b) tools.items) }
    ensures own_dones { IfOk result (λ dealt. KeepNothing (map (λ b. done b) dealt.own.items)) }
    ensures own_undones { IfOk result (λ dealt. KeepNothing (map (λ b. undone b) dealt.own.items)) }
    ensures other_dones { IfOk result (λ dealt. KeepNothing (map (λ b. done b) dealt.others.items)) }
    ensures other_undones { IfOk result (λ dealt. KeepNothing (map (λ b. undone b) dealt.others.items)) }
    ensures dealt { IfOk result (λ dealt. AreDealt (map (λ b. kind b) tools.items) (map (λ b. kind b) dealt.own.items) (map (λ b. kind b) dealt.others.items)) }
{
    let mut own = Vec::new(alloc);
    let mut others = Vec::new(alloc);
    for tool in tools {
        deal_one(&mut own, &mut others, tool)?;
    }
    Ok(Dealt { own, others })
}

// One box more.
fn deal_one(
    own: &mut Vec<Box<dyn Tool>>,
    others: &mut Vec<Box<dyn Tool>>,
    tool: Box<dyn Tool>,
) -> Result<(), AllocError>
    requires done { done tool ≡ [] }
    requires undone { undone tool ≡ [] }
    ensures own_dones { IfOk result (λ _. KeepNothing (map (λ b. done b) own.old.items) → KeepNothing (map (λ b. done b) own.new.items)) }
    ensures own_undones { IfOk result (λ _. KeepNothing (map (λ b. undone b) own.old.items) → KeepNothing (map (λ b. undone b) own.new.items)) }
    ensures other_dones { IfOk result (λ _. KeepNothing (map (λ b. done b) others.old.items) → KeepNothing (map (λ b. done b) others.new.items)) }
    ensures other_undones { IfOk result (λ _. KeepNothing (map (λ b. undone b) others.old.items) → KeepNothing (map (λ b. undone b) others.new.items)) }
    ensures dealt { IfOk result (λ _. (verbs : List Verb) → AreDealt verbs (map (λ b. kind b) own.old.items) (map (λ b. kind b) others.old.items) → AreDealt (verbs ++ kind tool ∷ []) (map (λ b. kind b) own.new.items) (map (λ b. kind b) others.new.items)) }
{
    if count_boxes(own, verb_of_box(&tool)) == 0 {
        own.push(tool)?;
        return Ok(());
    }
    others.push(tool)?;
    Ok(())
}
