ghost use Rattle.std.specs.Prelude.{◌≡◌, IfOk, OnOk};
ghost use Rattle.sd_graph.specs.TreeFold.{value_tree};
ghost use Rattle.sd_task.specs.task.UsedVariables.{with_variable, variable_value};

use indexmap::IndexSet;
use sd_graph::Value;
use sd_list::NoMemory;

/// One more variable that code uses, unless it stands there or is not in force.
pub fn push_variable(used: &mut IndexSet<u32>, variable: Option<u32>) -> Result<(), NoMemory>
    ensures { OnOk result (used.new.keys ≡ with_variable used.old.keys variable) }
{
    if let Some(variable) = variable {
        used.insert_full(variable)?;
    }
    Ok(())
}

/// A variable by its place among those that code uses; what is not in force is 0.
pub fn variable_value(used: &IndexSet<u32>, variable: Option<u32>) -> Result<Value, NoMemory>
    ensures { IfOk result (λ value. value_tree value ≡ variable_value used.now.keys variable) }
{
    match variable {
        None => Ok(Value::Number(0)),
        Some(variable) => {
            let place = used.get_index_of(&variable).unwrap_or(0);
            Ok(Value::Variable(u32::try_from(place).map_err(|_| NoMemory)?))
        }
    }
}
