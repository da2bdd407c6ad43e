ghost use Rattle.std.specs.Prelude.{◌≡◌, ◌+◌, [], ◌∷◌, cond, length, IfOk, OnOk};
ghost use Rattle.sd_task.specs.tasklet_names.UsedNames as definition;
ghost use Rattle.sd_task.specs.tasklet_names.UsedNames.{connectors_from};

use crate::in_force::{Scope, more};
use sd_graph::Link;
use sd_list::NoMemory;
use std::alloc::Global;

/// The connectors of a tasklet, by name.
#[derive(Drop)]
pub struct Connectors {
    pub ins: Scope,
    pub outs: Scope,
}

impl Connectors {
    /// The connectors of these links: the inputs are numbered first, then the outputs.
    pub fn new(alloc: Global, ins: &[Link], outs: &[Link]) -> Result<Connectors, NoMemory>
        ensures ins { IfOk result (λ connectors. connectors.ins ≡ connectors_from 0 ins.now) }
        ensures outs { IfOk result (λ connectors. connectors.outs ≡ connectors_from (length ins.now) outs.now) }
    {
        let behind = u32::try_from(ins.len()).map_err(|_| NoMemory)?;
        Ok(Connectors {
            ins: numbered(alloc, ins, 0)?,
            outs: numbered(alloc, outs, behind)?,
        })
    }
}

/// The connectors of links, the first with this number.
fn numbered(alloc: Global, links: &[Link], first: u32) -> Result<Scope, NoMemory>
    ensures { IfOk result (λ scope. scope ≡ connectors_from first links.now) }
{
    let mut scope = Scope::new(alloc);
    let mut next = first;
    for link in links {
        let connector = String::from_str(alloc, link.connector.as_str())?;
        scope.push(connector, next)?;
        next = more(next, 1)?;
    }
    Ok(scope)
}

/// The locals in force in a tasklet, by name; `next` is the number of the next new one.
#[derive(Drop)]
pub struct Locals {
    pub names: Scope,
    pub next: u32,
}

impl Locals {
    /// No local.
    pub fn new(alloc: Global) -> Locals
        ensures names { result.names ≡ [] }
        ensures next { result.next ≡ 0 }
    {
        Locals {
            names: Scope::new(alloc),
            next: 0,
        }
    }

    /// A name that is assigned: it is a new local where it is neither an output nor a local in force.
    pub fn assign(
        &mut self,
        alloc: Global,
        connectors: &Connectors,
        name: &str,
    ) -> Result<(), NoMemory>
        ensures names { OnOk result (self.new.names ≡ cond (definition.is_assigned [] connectors.now.ins connectors.now.outs self.old.names name.now) self.old.names ((name.now, self.old.next) ∷ self.old.names)) }
        ensures next { OnOk result (self.new.next ≡ cond (definition.is_assigned [] connectors.now.ins connectors.now.outs self.old.names name.now) self.old.next (self.old.next + 1)) }
    {
        if connectors.outs.find(name).is_some() || self.names.find(name).is_some() {
            return Ok(());
        }
        self.names.push(String::from_str(alloc, name)?, self.next)?;
        self.next = more(self.next, 1)?;
        Ok(())
    }
}
