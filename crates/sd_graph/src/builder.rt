ghost use Rattle.std.specs.Prelude.{◌≡◌, ◌++◌, [], ◌∷◌, false, length, string_bytes, IfOk, OnOk, OnErr};
ghost use Rattle.sd_graph.specs.TreeFold.{graph_tree, state_tree, item_tree, exit_tree};
ghost use Rattle.sd_graph.specs.TreeParts.{containers_of, has_name, states_of_graph, count_states, with_item, with_container, with_graph_state};

use crate::container::Container;
use crate::exit::Exit;
use crate::graph::{Item, Sdfg, State};
use sd_list::NoMemory;

impl State {
    /// One more item, the last one.
    pub fn push_item(&mut self, item: Item) -> Result<(), NoMemory>
        ensures ok { OnOk result (state_tree self.new ≡ (with_item (state_tree self.old).0 (item_tree item).0 (item_tree item).1, (state_tree self.old).1)) }
        ensures err { OnErr result (state_tree self.new ≡ state_tree self.old) }
    {
        self.items.push(item)?;
        Ok(())
    }

    /// One more transition, the last one.
    pub fn push_exit(&mut self, exit: Exit) -> Result<(), NoMemory>
        ensures ok { OnOk result (state_tree self.new ≡ ((state_tree self.old).0, (state_tree self.old).1 ++ exit_tree exit ∷ [])) }
        ensures err { OnErr result (state_tree self.new ≡ state_tree self.old) }
    {
        self.exits.push(exit)?;
        Ok(())
    }
}

impl Sdfg {
    /// Whether one of the containers has this name. Takes no memory.
    pub fn has_container(&self, name: &str) -> bool
        ensures { result ≡ has_name (containers_of (graph_tree self.now)) name.now }
    {
        self.containers.contains_key(name)
    }

    /// One more container, the last one; its number. Its name is new: `has_container` tells.
    pub fn push_container(&mut self, name: String, container: Container) -> Result<u32, NoMemory>
        requires { has_name (containers_of (graph_tree self.old)) (string_bytes name) ≡ false }
        ensures number { IfOk result (λ number. number ≡ length (containers_of (graph_tree self.old))) }
        ensures ok { OnOk result (graph_tree self.new ≡ with_container (graph_tree self.old) (string_bytes name) container) }
        ensures err { OnErr result (graph_tree self.new ≡ graph_tree self.old) }
    {
        let number = u32::try_from(self.containers.len()).map_err(|_| NoMemory)?;
        self.containers.insert(name, container)?;
        Ok(number)
    }

    /// One more state, the last one; its number.
    pub fn push_state(&mut self, state: State) -> Result<u32, NoMemory>
        ensures number { IfOk result (λ number. number ≡ count_states (states_of_graph (graph_tree self.old))) }
        ensures ok { OnOk result (graph_tree self.new ≡ with_graph_state (graph_tree self.old) (state_tree state).0 (state_tree state).1) }
        ensures err { OnErr result (graph_tree self.new ≡ graph_tree self.old) }
    {
        let number = u32::try_from(self.states.len()).map_err(|_| NoMemory)?;
        self.states.push(state)?;
        Ok(number)
    }
}
